// Whether lent octets are lines of a table of n records.
ghost use Rattle.std.specs.Prelude.{◌≡◌, ◌&&◌, ◌≤◌, length};
ghost use Rattle.lines.specs.Fit.{below, apart, fit_line, fit_lines};

#[tactic(auto, unfolding(crate::specs::Fit::fit_lines, crate::specs::Lines::part_at))]
pub fn is_fit(lines: &[u8], n: usize) -> bool
    ensures { result ≡ fit_lines n lines.now }
{
    n <= 16
        && lines.len() == 51
        && is_line(&lines[0..17], n)
        && is_line(&lines[17..34], n)
        && is_line(&lines[34..51], n)
}

#[tactic(auto, unfolding(crate::specs::Fit::fit_line, crate::specs::Lines::line_in))]
fn is_line(line: &[u8], n: usize) -> bool
    requires { (n ≤ 16) × (length line.now ≡ 17) }
    ensures { result ≡ fit_line n line.now }
{
    let count = line[0] as usize;
    count <= 16 && is_apart(&line[1..count + 1], n) && line[count + 1..].iter().all(|x| *x == 0)
}

// Each index is below n, and none stands twice: each that was passed is marked.
fn is_apart(row: &[u8], n: usize) -> bool
    requires { n ≤ 16 }
    ensures { result ≡ (below n row.now && apart row.now) }
{
    let mut passed = [false; 16];
    for x in row {
        let x = *x as usize;
        if n <= x || passed[x] {
            return false;
        }
        passed[x] = true;
    }
    true
}
