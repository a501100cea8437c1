// One line: 17 octets, how many stand in it, and their indexes from the head on. The count stands beside them and no slice has their length: the octets
// are lent, and the definition `fit_lines` lays them out so.
ghost use Rattle.std.specs.Prelude.{◌≡◌, ◌<◌, ◌==◌, length, position};
ghost use Rattle.lines.specs.Lines.{joined, without, relisted, line_octets, line_in};
ghost use Rattle.lines.specs.Fit.{FitLine};

// How many stand before i, if it stands in the line; no more than 16 do.
pub fn place(line: &[u8], i: u8) -> Option<usize>
    requires { length line.now ≡ 17 }
    ensures { result ≡ position (λ x. x == i) (line_in line.now) }
{
    let end = (line[0] as usize).min(16) + 1;
    line[1..end].iter().position(|x| *x == i)
}

// i joins at the tail, unless it stands there.
#[tactic(auto, using(crate::proofs::FitLaws::counted))]
pub fn join(line: &mut [u8], i: u8)
    requires fit_line { FitLine 16 line.old }
    requires i_bound { i < 16 }
    ensures { line.new ≡ line_octets (joined i (line_in line.old)) }
{
    if place(line, i).is_some() {
        return;
    }
    let tail = line[0] + 1;
    line[tail as usize] = i;
    line[0] = tail;
}

// i leaves, and those behind it move up, with the zeros behind them.
#[tactic(auto, using(crate::proofs::FitLaws::counted, crate::proofs::CodeLaws::place_in_line))]
pub fn leave(line: &mut [u8], i: u8)
    requires { FitLine 16 line.old }
    ensures { line.new ≡ line_octets (without i (line_in line.old)) }
{
    if let Some(before) = place(line, i) {
        let left = line[0] - 1;
        line.copy_within(before + 2.., before + 1);
        line[16] = 0;
        line[0] = left;
    }
}

// i joins if it is ready, and leaves if not.
#[tactic(auto, unfolding(crate::specs::Lines::relisted))]
pub fn relist_line(line: &mut [u8], i: u8, ready: bool)
    requires fit_line { FitLine 16 line.old }
    requires i_bound { i < 16 }
    ensures { line.new ≡ line_octets (relisted i ready (line_in line.old)) }
{
    if ready {
        join(line, i);
    } else {
        leave(line, i);
    }
}
