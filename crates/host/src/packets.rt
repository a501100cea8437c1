// The answers of a packet read or written alone.
ghost use Rattle.std.specs.Prelude.{◌≡◌};
ghost use Rattle.host.specs.Packet.{reading_of, refusal, writing_of};

use packet::{Fields, Found, ReadError, WriteError, written_number};

// What reading gives: the answer number, and with 0 the fields, how many octets the prefix has, which stand from octet 9 on, where the payload
// begins and how many octets it has. A refusal has 0 in all of these.
#[repr(C)]
#[derive(Clone, Copy)]
pub struct Reading {
    pub answer: u32,
    pub fields: Fields,
    pub prefix: usize,
    pub start: usize,
    pub length: usize,
}

// What writing gives: the answer number, and with 0 how many octets were written.
#[repr(C)]
#[derive(Clone, Copy)]
pub struct Writing {
    pub answer: u32,
    pub length: usize,
}

pub fn reading_of(r: Result<Found, ReadError>) -> Reading
    ensures { result ≡ reading_of r }
{
    match r {
        Ok(found) => Reading {
            answer: 0,
            fields: found.fields,
            prefix: found.prefix,
            start: found.start,
            length: found.length,
        },
        Err(why) => refused(u32::from(why)),
    }
}

fn refused(answer: u32) -> Reading
    ensures { result ≡ refusal answer }
{
    Reading {
        answer,
        fields: Fields {
            destination: 0,
            protocol: 0,
            version: 0,
            secondary: 0,
            flags: 0,
            kind: 0,
            channel: 0,
            number: 0,
            reserved: 0,
            source: 0,
        },
        prefix: 0,
        start: 0,
        length: 0,
    }
}

pub fn writing_of(w: Result<usize, WriteError>) -> Writing
    ensures { result ≡ writing_of w }
{
    let length = match w {
        Ok(length) | Err(WriteError::Small(length)) => length,
        Err(_) => 0,
    };
    Writing {
        answer: written_number(w),
        length,
    }
}
