// No code: while a channel stands in a line, at most fifteen packets of that rank go before its own (document 02, A4), of every list of calls.
#![tactic(auto)]
