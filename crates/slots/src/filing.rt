// A segment is filed in a slot, and read back.
ghost use Rattle.std.specs.Prelude.{◌≡◌, ◌∷◌, ◌+◌, ◌*◌, ◌≤◌, ◌<◌, length, get_or, set};
ghost use Rattle.slots.specs.Slots.{Sized, laid, segment_in};

// The octets of a segment go to a slot, with their length. The slot's octets past them stay.
pub fn file_segment(
    mem: &mut [u8],
    lens: &mut [u16],
    slot: usize,
    slots: usize,
    most: usize,
    part: &[u8],
)
    requires sized { Sized slots most mem.old lens.old }
    requires slot_lt_slots { (slot < slots) × (length part.now ≤ most) }
    ensures { (mem.new ≡ laid mem.old (slot * most) part.now) × (lens.new ≡ set lens.old slot (length part.now)) }
{
    let at = slot * most;
    mem[at..at + part.len()].copy_from_slice(part);
    lens[slot] = part.len() as u16;
}

// A leading octet and the octets of a segment go to a slot, with their length together.
pub fn file_led(
    mem: &mut [u8],
    lens: &mut [u16],
    slot: usize,
    slots: usize,
    most: usize,
    lead: u8,
    part: &[u8],
)
    requires sized { Sized slots most mem.old lens.old }
    requires slot_lt_slots { (slot < slots) × (length part.now < most) }
    ensures { (mem.new ≡ laid mem.old (slot * most) (lead ∷ part.now)) × (lens.new ≡ set lens.old slot (length (lead ∷ part.now))) }
{
    let at = slot * most;
    mem[at] = lead;
    let next = at + 1;
    mem[next..next + part.len()].copy_from_slice(part);
    lens[slot] = (part.len() + 1) as u16;
}

// The octets filed in a slot go to `out` from a place on.
pub fn read_segment(
    mem: &[u8],
    lens: &[u16],
    slot: usize,
    slots: usize,
    most: usize,
    out: &mut [u8],
    at: usize,
)
    requires sized { Sized slots most mem.now lens.now }
    requires slot_lt_slots { (slot < slots) × (get_or lens.now slot 0 ≤ most) × (at + get_or lens.now slot 0 ≤ length out.old) }
    ensures { out.new ≡ laid out.old at (segment_in most mem.now lens.now slot) }
{
    let n = lens[slot] as usize;
    let from = slot * most;
    out[at..at + n].copy_from_slice(&mem[from..from + n]);
}
