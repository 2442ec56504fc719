// What a command sets: gates, sensitivities and baud rates, and which of them the module takes.
ghost use Rattle.std.specs.Prelude.{◌≡◌, ◌&&◌};
ghost use Rattle.command.specs.Setting.{gate_value, gate_known, farthest, sensitivity, index_of, baud_of, rate_of};

// Highest gate index accepted in a command.
const MAX_GATE: u8 = 8;

// Lowest number of a farthest gate accepted in `Command::SetMaxGates`.
const MIN_FARTHEST: u8 = 2;

// Highest sensitivity accepted in a command.
const MAX_SENSITIVITY: u8 = 100;

// The gate that a `Command::SetSensitivity` addresses. An `Option` is no plainer: its `None` does not say "all".
#[derive(Clone, Copy)]
pub enum Gate {
    Index(u8),
    All,
}

// Serial baud rate, by the module's selection index, 1 to 8. The factory default is `B256000`; a change takes effect
// after `Command::Restart`.
#[derive(Clone, Copy)]
pub enum Baud {
    B9600,
    B19200,
    B38400,
    B57600,
    B115200,
    B230400,
    B256000,
    B460800,
}

impl Gate {
    // Returns the value that the command carries.
    pub fn value(self) -> u32
        ensures carried { result ≡ gate_value self }
    {
        match self {
            Gate::Index(i) => i as u32,
            Gate::All => 0xFFFF,
        }
    }

    // Tests whether the module has the gate.
    pub(crate) fn known(self) -> bool
        ensures tested { result ≡ gate_known self }
    {
        match self {
            Gate::Index(i) => i <= MAX_GATE,
            Gate::All => true,
        }
    }
}

impl Baud {
    // Returns the selection index that the command carries. It and `bits_per_second` are two tables of one shape, so
    // one function would be no plainer.
    pub fn index(self) -> u16
        ensures carried { result ≡ index_of self }
    {
        match self {
            Baud::B9600 => 1,
            Baud::B19200 => 2,
            Baud::B38400 => 3,
            Baud::B57600 => 4,
            Baud::B115200 => 5,
            Baud::B230400 => 6,
            Baud::B256000 => 7,
            Baud::B460800 => 8,
        }
    }

    // Returns the rate for a selection index, if the module knows the index.
    pub fn from_index(index: u16) -> Option<Baud>
        ensures found { result ≡ baud_of index }
    {
        match index {
            1 => Some(Baud::B9600),
            2 => Some(Baud::B19200),
            3 => Some(Baud::B38400),
            4 => Some(Baud::B57600),
            5 => Some(Baud::B115200),
            6 => Some(Baud::B230400),
            7 => Some(Baud::B256000),
            8 => Some(Baud::B460800),
            _ => None,
        }
    }

    // Returns the bits per second.
    pub fn bits_per_second(self) -> u32
        ensures told { result ≡ rate_of self }
    {
        match self {
            Baud::B9600 => 9600,
            Baud::B19200 => 19_200,
            Baud::B38400 => 38_400,
            Baud::B57600 => 57_600,
            Baud::B115200 => 115_200,
            Baud::B230400 => 230_400,
            Baud::B256000 => 256_000,
            Baud::B460800 => 460_800,
        }
    }
}

// Tests whether a gate may be the farthest: 2 to 8, as the paper has it; the Rust begins at 0.
pub(crate) fn may_be_farthest(gate: u8) -> bool
    ensures tested { result ≡ farthest gate }
{
    (MIN_FARTHEST..=MAX_GATE).contains(&gate)
}

// Tests whether both values are sensitivities.
pub(crate) fn are_sensitivities(moving: u8, stationary: u8) -> bool
    ensures tested { result ≡ (sensitivity moving && sensitivity stationary) }
{
    moving <= MAX_SENSITIVITY && stationary <= MAX_SENSITIVITY
}
