// No code: where Flow Control is used and the link keeps order, Data always finds a slot (document 02, A5).
#![tactic(auto)]
