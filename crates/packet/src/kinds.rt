// The kinds of packets, and the codes of their types (000, Table 4-2). No type is told by its number anywhere else.
ghost use Rattle.std.specs.Prelude.{◌≡◌};
ghost use Rattle.packet.specs.Kinds.{is_data, code_of, kind_of, most_carried};

#[derive(Clone, Copy, PartialEq, Eq, Debug)]
pub enum Kind {
    Data,
    DataAck,
    Open,
    Close,
    Heartbeat,
    HeartbeatAck,
    // Flow Control with one octet, its Ack with none.
    FlowControl,
    ControlAck,
    // A code that is no type.
    Lacking(u8),
}

const DATA: u8 = 0;

const DATA_ACK: u8 = 1;

const OPEN: u8 = 2;

const CLOSE: u8 = 3;

const HEARTBEAT: u8 = 4;

const HEARTBEAT_ACK: u8 = 5;

const FLOW_CONTROL: u8 = 6;

const CONTROL_ACK: u8 = 7;

impl From<Kind> for u8 {
    ghost from_gives = { λ kind code. code ≡ code_of kind };

    fn from(kind: Kind) -> u8 {
        match kind {
            Kind::Data => DATA,
            Kind::DataAck => DATA_ACK,
            Kind::Open => OPEN,
            Kind::Close => CLOSE,
            Kind::Heartbeat => HEARTBEAT,
            Kind::HeartbeatAck => HEARTBEAT_ACK,
            Kind::FlowControl => FLOW_CONTROL,
            Kind::ControlAck => CONTROL_ACK,
            Kind::Lacking(code) => code,
        }
    }
}

impl From<u8> for Kind {
    ghost from_gives = { λ code kind. kind ≡ kind_of code };

    #[tactic(auto, unfolding(crate::specs::Kinds::kind_of))]
    fn from(code: u8) -> Kind {
        match code {
            DATA => Kind::Data,
            DATA_ACK => Kind::DataAck,
            OPEN => Kind::Open,
            CLOSE => Kind::Close,
            HEARTBEAT => Kind::Heartbeat,
            HEARTBEAT_ACK => Kind::HeartbeatAck,
            FLOW_CONTROL => Kind::FlowControl,
            CONTROL_ACK => Kind::ControlAck,
            _ => Kind::Lacking(code),
        }
    }
}

pub fn is_data(kind: Kind) -> bool
    ensures { result ≡ is_data kind }
{
    matches!(kind, Kind::Data)
}

// How many octets a packet other than Data carries at most: where a number is stated, that one.
pub fn most_carried(kind: Kind) -> usize
    ensures { result ≡ most_carried kind }
{
    match kind {
        Kind::DataAck | Kind::FlowControl | Kind::ControlAck => 1,
        _ => 0,
    }
}
