// A packet as a line of an exchange shows it: its type and its number, and of the receiver's the number that it states, if it does.
use packet::{Found, Kind, read_packet};
use std::fmt;

#[derive(Clone, Copy)]
pub struct Shown<'a>(pub &'a [u8]);

impl fmt::Display for Shown<'_> {
    fn fmt<W: fmt::Write>(&self, f: &mut fmt::Formatter<W>) -> fmt::Result {
        let Ok(
            Found {
                fields,
                start,
                length,
                ..
            },
        ) = read_packet(self.0)
        else {
            return Ok(());
        };
        let kind = Kind::from(fields.kind);
        let name = match kind {
            Kind::Data => "Data",
            Kind::DataAck => "Data Ack",
            Kind::Open => "Open",
            Kind::Close => "Close",
            // With an octet; its Ack is without.
            Kind::FlowControl if length == 1 => "Flow Control",
            Kind::FlowControl => "Flow Control Ack",
            _ => "Control Ack",
        };
        write!(f, "{name} ({}", fields.number)?;
        if length == 1
            && !matches!(kind, Kind::Data)
            && let Some(stated) = self.0.get(start)
        {
            write!(f, ", {stated}")?;
        }
        write!(f, ")")
    }
}
