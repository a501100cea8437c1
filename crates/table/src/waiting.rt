// Who waits to hand out a packet, and what a call does to the lines (document 02, A4).
ghost use Rattle.std.specs.Prelude.{◌≡◌, ◌<◌, if◌then◌else◌};
ghost use Rattle.lines.specs.Fit.{Fit};
ghost use Rattle.table.specs.Waiting.{waiting_of, rank_in, moved_with, may_move};

use crate::looking::Sought;
use channel::record::SENDS;
use channel::{Answer, Channel};
use lines::{Ranks, relist, serve};
use sender_packets::{is_open_ready, ranks_of};

// Of which ranks a packet is ready; a receiver hands out its Heartbeat and Flow Control alone.
#[tactic(auto, unfolding(crate::specs::Waiting::waits))]
pub fn waiting(c: Channel) -> Ranks
    ensures { result ≡ waiting_of c }
{
    if c.addresses.direction == SENDS {
        return ranks_of(c);
    }
    Ranks {
        control: is_open_ready(c),
        ..Ranks::NONE
    }
}

// The rank of a grade: 0 Control, Heartbeats and Flow Control, 1 resent Data, 2 new Data.
pub fn rank_in(grade: usize) -> usize
    ensures { result ≡ rank_in grade }
{
    if grade < 16 {
        0
    } else if grade < 32 {
        1
    } else {
        2
    }
}

// The channel at index i joins, leaves or keeps its place in each line, by the answer of a call and by what is then ready: that is handed over,
// and not the record, which is 944 octets.
pub fn move_lines(lines: &mut [u8], sought: Sought, rank: usize, i: usize, answer: Answer, w: Ranks)
    requires { (Fit 16 lines.old) × (rank < 3) × (i < 16) }
    ensures { lines.new ≡ (if may_move answer then moved_with sought rank i w lines.old else lines.old) }
{
    // Only 0, 9 and 15 change a record.
    if matches!(answer, Answer::Refused(_)) {
        return;
    }
    match sought {
        Sought::Index(_) | Sought::Packet { .. } => relist(lines, i, w),
        Sought::Ready => serve(lines, rank, i, w),
        Sought::Question(_) | Sought::Nobody(_) => {}
    }
}
