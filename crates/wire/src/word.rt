// The command words of the host. An acknowledgement has its command's word, with `ACK_BIT` set.

// Enable configuration; value 0001. Its acknowledgement returns protocol version and buffer size.
pub const ENABLE_CONFIG: u16 = 0x00FF;
// End configuration; no value.
pub const END_CONFIG: u16 = 0x00FE;
// Set the farthest gates and the no-one duration; three records.
pub const SET_MAX_GATES: u16 = 0x0060;
// Read parameters; its acknowledgement returns `Parameters`.
pub const READ_PARAMETERS: u16 = 0x0061;
// Enable engineering mode; no value.
pub const ENGINEERING_ON: u16 = 0x0062;
// End engineering mode; no value.
pub const ENGINEERING_OFF: u16 = 0x0063;
// Set a gate's sensitivity; three records.
pub const SET_SENSITIVITY: u16 = 0x0064;
// Read the firmware version; its acknowledgement returns `FirmwareVersion`.
pub const READ_FIRMWARE: u16 = 0x00A0;
// Set the serial baud rate; value is an index.
pub const SET_BAUD: u16 = 0x00A1;
// Restore factory settings; no value.
pub const FACTORY_RESET: u16 = 0x00A2;
// Restart the module; no value.
pub const RESTART: u16 = 0x00A3;
// Bluetooth; value 0001 on, 0000 off.
pub const BLUETOOTH: u16 = 0x00A4;
// Read the address; value 0001. Its acknowledgement returns six bytes.
pub const READ_MAC: u16 = 0x00A5;
