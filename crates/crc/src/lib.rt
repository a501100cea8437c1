// The check sum of a packet. Its definition goes bit by bit; the proofs show that the sum is the same.
#![tactic(auto)]

ghost use Rattle.std.specs.Prelude.{◌≡◌, [], ◌∷◌, ◌+◌, ◌≤◌, length, drop, get_or};
ghost use Rattle.crc.specs.Crc.{octet_into, crc_from, crc_of};
ghost use Rattle.crc.specs.Table.{table};
ghost use Rattle.crc.specs.Words.{word_at, folded, words_into};

// The check sum of all the octets of s. Of a part, lend the part: `crc_of(&s[a..e])`.
#[tactic(auto, unfolding(crate::specs::Crc::crc_of))]
pub fn crc_of(s: &[u8]) -> u16
    ensures { result ≡ crc_of s.now }
{
    if s.len() < 8 {
        return octets_into(0xFFFF, s);
    }
    if s.len() < 32 {
        return by_joins(s);
    }
    by_falls(s)
}

// All ones, at the top of the first word.
const ONES: u64 = 0xFFFF_0000_0000_0000;

// Of few octets: one word is carried along, and joined with each after it.
#[tactic(auto, using(crate::proofs::Over::crc_first), unfolding(crate::specs::Words::word_into, crate::specs::Words::words_into))]
fn by_joins(s: &[u8]) -> u16
    requires { 8 ≤ length s.now }
    ensures { result ≡ crc_of s.now }
{
    let mut word = word_at(s, 0) ^ ONES;
    let words = s.len() / 8;
    for k in 1..words {
        word = join(word, word_at(s, 8 * k));
    }
    octets_into(fold(word), &s[8 * words..])
}

// Two words, as one of the same sum: the upper falls onto the lower, with all that falls of it more than once (x^64 = x^48 + x^20 + 1).
#[tactic(auto, using(crate::proofs::Falls::fall_one), unfolding(crate::specs::Words::fall_four, crate::specs::Words::fall_eight))]
fn join(upper: u64, lower: u64) -> u64
    ensures { words_into 0 (result ∷ []) ≡ words_into 0 (upper ∷ lower ∷ []) }
{
    let four = upper ^ (upper >> 16) ^ (upper >> 44);
    let whole = four ^ (four >> 32);
    (whole ^ (whole << 20) ^ (whole << 48)) ^ lower
}

// Four words whose sum is still to be taken.
#[derive(Clone, Copy)]
struct Four {
    a: u64,
    b: u64,
    c: u64,
    d: u64,
}

// Of many: four words are carried along, so that no word waits for the one before it.
#[tactic(auto, using(crate::proofs::Over::crc_fourth))]
fn by_falls(s: &[u8]) -> u16
    requires { 32 ≤ length s.now }
    ensures { result ≡ crc_of s.now }
{
    let mut four = Four {
        a: word_at(s, 0) ^ ONES,
        b: word_at(s, 8),
        c: word_at(s, 16),
        d: word_at(s, 24),
    };
    let words = s.len() / 8;
    for k in 4..words {
        four = fall(four, word_at(s, 8 * k));
    }
    octets_into(settle(four), &s[8 * words..])
}

// One word more: the first falls onto the four after it, and is gone (x^256 = x^192 + x^80 + 1).
fn fall(f: Four, word: u64) -> Four
    ensures { words_into 0 (result.a ∷ result.b ∷ result.c ∷ result.d ∷ []) ≡ words_into 0 (f.a ∷ f.b ∷ f.c ∷ f.d ∷ word ∷ []) }
{
    Four {
        a: f.a ^ f.b,
        b: (f.a >> 48) ^ f.c,
        c: (f.a << 16) ^ f.d,
        d: f.a ^ word,
    }
}

// No word more: the four are joined, and the last is folded.
#[tactic(auto, unfolding(crate::specs::Words::word_into, crate::specs::Words::words_into))]
fn settle(f: Four) -> u16
    ensures { result ≡ words_into 0 (f.a ∷ f.b ∷ f.c ∷ f.d ∷ []) }
{
    fold(join(join(join(f.a, f.b), f.c), f.d))
}

// The octets left over: two at once while there are two, then one by the table.
#[tactic(auto, using(crate::proofs::Over::crc_more, crate::proofs::Over::crc_end))]
fn octets_into(register: u16, s: &[u8]) -> u16
    ensures { result ≡ crc_from register s.now }
{
    let mut r = register;
    let pairs = s.len() / 2;
    for k in 0..pairs {
        r = pair_into(r, s[2 * k], s[2 * k + 1]);
    }
    if 2 * pairs < s.len() {
        return octet_into(r, s[2 * pairs]);
    }
    r
}

// Two octets more: as many bits as the register has. They are added to it, and it is folded.
#[tactic(auto, using(crate::proofs::Words::word_first))]
fn pair_into(register: u16, upper: u8, lower: u8) -> u16
    ensures { result ≡ octet_into (octet_into register upper) lower }
{
    fold(u64::from(register ^ u16::from_be_bytes([upper, lower])))
}

// The eight octets from i on as one number, the first at the top. The compiler makes one load of it.
#[tactic(auto, unfolding(crate::specs::Words::four_at, crate::specs::Words::word_at))]
fn word_at(s: &[u8], i: usize) -> u64
    requires { i + 8 ≤ length s.now }
    ensures { result ≡ word_at s.now i }
{
    u64::from_be_bytes([
        s[i],
        s[i + 1],
        s[i + 2],
        s[i + 3],
        s[i + 4],
        s[i + 5],
        s[i + 6],
        s[i + 7],
    ])
}

// One octet more: it is added at the register's top. Then the lower eight bits move up, and the table's number at the upper eight is added.
fn octet_into(register: u16, octet: u8) -> u16
    ensures { result ≡ octet_into register octet }
{
    let c = register ^ ((octet as u16) * 256);
    (c << 8) ^ entry((c >> 8) as u8)
}

// The number at an octet in the table of 256 (specs/Table.antt). Made by shifts: an array of them would be copied, all 512 octets, in each call.
#[tactic(auto, using(crate::proofs::Table::folded_entry))]
fn entry(octet: u8) -> u16
    ensures { result ≡ get_or table octet 0 }
{
    fold(u64::from(octet))
}

// A word, brought down to the 16 bits that the register holds after all its octets. Shifts and sums alone, as specs/Words.antt tells.
fn fold(word: u64) -> u16
    ensures { result ≡ folded word }
{
    let once = word ^ (word >> 4) ^ (word >> 11) ^ (word >> 16);
    let twice = once ^ (once >> 8) ^ (once >> 22) ^ (once >> 32);
    let four = twice ^ (twice >> 16) ^ (twice >> 44);
    let eight = four ^ (four >> 32);
    let t = (eight % 0x1_0000) as u16;
    t ^ (t << 5) ^ (t << 12)
}
