// The reports and the acknowledgements that Hi-Link's documents print, as they are on record: protocol V1.02 of the
// HLK-LD2410, and V1.00 of the LD2410C.

use ld2410::word;

// Bytes of an acknowledgement that holds no reply.
const PLAIN: usize = 14;

// The acknowledgements in the documents' order, each with its command's word.
pub const ACKS: [(&str, &[u8], u16); 14] = [
    ("EnableConfig", &ENABLE_CONFIG, word::ENABLE_CONFIG),
    ("EndConfig", &END_CONFIG, word::END_CONFIG),
    ("SetMaxGates", &SET_MAX_GATES, word::SET_MAX_GATES),
    ("ReadParameters", &READ_PARAMETERS, word::READ_PARAMETERS),
    ("EngineeringMode on", &ENGINEERING_ON, word::ENGINEERING_ON),
    (
        "EngineeringMode off",
        &ENGINEERING_OFF,
        word::ENGINEERING_OFF,
    ),
    ("SetSensitivity", &SET_SENSITIVITY, word::SET_SENSITIVITY),
    ("ReadFirmware", &READ_FIRMWARE, word::READ_FIRMWARE),
    (
        "ReadFirmware, LD2410C",
        &READ_FIRMWARE_C,
        word::READ_FIRMWARE,
    ),
    ("SetBaud", &SET_BAUD, word::SET_BAUD),
    ("FactoryReset", &FACTORY_RESET, word::FACTORY_RESET),
    ("Restart", &RESTART, word::RESTART),
    ("Bluetooth", &BLUETOOTH, word::BLUETOOTH),
    ("ReadMac", &READ_MAC, word::READ_MAC),
];

pub const BASIC: [u8; 23] = *b"\
    \xF4\xF3\xF2\xF1\x0D\x00\
    \x02\xAA\x02\x51\x00\x00\x00\x00\x3B\x00\x00\x55\x00\
    \xF8\xF7\xF6\xF5";

pub const ENGINEERING: [u8; 45] = *b"\
    \xF4\xF3\xF2\xF1\x23\x00\
    \x01\xAA\x03\x1E\x00\x3C\x00\x00\x39\x00\x00\x08\x08\
    \x3C\x22\x05\x03\x03\x04\x03\x06\x05\
    \x00\x00\x39\x10\x13\x06\x06\x08\x04\
    \x03\x05\x55\x00\
    \xF8\xF7\xF6\xF5";

const ENABLE_CONFIG: [u8; 18] = *b"\
    \xFD\xFC\xFB\xFA\x08\x00\xFF\x01\x00\x00\x01\x00\x40\x00\x04\x03\x02\x01";

const END_CONFIG: [u8; PLAIN] = *b"\xFD\xFC\xFB\xFA\x04\x00\xFE\x01\x00\x00\x04\x03\x02\x01";

const SET_MAX_GATES: [u8; PLAIN] = *b"\xFD\xFC\xFB\xFA\x04\x00\x60\x01\x00\x00\x04\x03\x02\x01";

const READ_PARAMETERS: [u8; 38] = *b"\
    \xFD\xFC\xFB\xFA\x1C\x00\
    \x61\x01\x00\x00\xAA\x08\x08\x08\
    \x14\x14\x14\x14\x14\x14\x14\x14\x14\
    \x19\x19\x19\x19\x19\x19\x19\x19\x19\
    \x05\x00\
    \x04\x03\x02\x01";

const ENGINEERING_ON: [u8; PLAIN] = *b"\xFD\xFC\xFB\xFA\x04\x00\x62\x01\x00\x00\x04\x03\x02\x01";

const ENGINEERING_OFF: [u8; PLAIN] = *b"\xFD\xFC\xFB\xFA\x04\x00\x63\x01\x00\x00\x04\x03\x02\x01";

const SET_SENSITIVITY: [u8; PLAIN] = *b"\xFD\xFC\xFB\xFA\x04\x00\x64\x01\x00\x00\x04\x03\x02\x01";

const READ_FIRMWARE: [u8; 22] = *b"\
    \xFD\xFC\xFB\xFA\x0C\x00\
    \xA0\x01\x00\x00\x00\x00\x02\x01\x16\x24\x06\x22\
    \x04\x03\x02\x01";

// The LD2410C's reply to `READ_FIRMWARE`: the document gives its type alone, so the rest is as above.
const READ_FIRMWARE_C: [u8; 22] = *b"\
    \xFD\xFC\xFB\xFA\x0C\x00\
    \xA0\x01\x00\x00\x00\x01\x02\x01\x16\x24\x06\x22\
    \x04\x03\x02\x01";

const SET_BAUD: [u8; PLAIN] = *b"\xFD\xFC\xFB\xFA\x04\x00\xA1\x01\x00\x00\x04\x03\x02\x01";

const FACTORY_RESET: [u8; PLAIN] = *b"\xFD\xFC\xFB\xFA\x04\x00\xA2\x01\x00\x00\x04\x03\x02\x01";

const RESTART: [u8; PLAIN] = *b"\xFD\xFC\xFB\xFA\x04\x00\xA3\x01\x00\x00\x04\x03\x02\x01";

const BLUETOOTH: [u8; PLAIN] = *b"\xFD\xFC\xFB\xFA\x04\x00\xA4\x01\x00\x00\x04\x03\x02\x01";

const READ_MAC: [u8; 20] = *b"\
    \xFD\xFC\xFB\xFA\x0A\x00\xA5\x01\x00\x00\x8F\x27\x2E\xB8\x0F\x65\x04\x03\x02\x01";
