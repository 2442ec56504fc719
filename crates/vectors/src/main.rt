// Tries the readers and the writers against the documents: it reads the bytes that document 01 and the maker's
// documents print, writes the commands that they print, reads and writes again the states of request 3, and writes a
// line for each. The file stdout beside src/ has what the documents say of them, written by hand.

#![tactic(auto)]

use acks::{AckData, AckFrame};
use ld2410::{Baud, Command, Gate, word};
use reports::{ReportData, ReportFrame};
use sent::Sent;
use states::InState;
use std::io;

mod acks;
mod frames;
mod hex;
mod published;
mod reports;
mod sent;
mod states;
mod tried;

// Writes the rows of document 01's "Bytes to try" about readers.
fn tried_rows(rt: &impl Print) -> io::Result<()> {
    println!(rt; "B: {}", ReportFrame(&tried::B))?;
    println!(rt; "B's data: {}", ReportData(&tried::B_DATA))?;
    println!(rt; "type 03: {}", ReportData(&tried::TYPE_3))?;
    println!(rt;
        "type 03, eight basic bytes: {}",
        ReportData(&tried::TYPE_3_SHORT)
    )?;
    println!(rt; "max_moving_gate 8: {}", ReportData(&tried::MAX_GATE_8))?;
    println!(rt; "max_moving_gate 9: {}", ReportData(&tried::MAX_GATE_9))?;
    for awaited in [word::ENABLE_CONFIG, word::READ_PARAMETERS] {
        let data = &tried::FAILED_ACK;
        println!(rt; "FF 01 01 00: {}", AckData { data, awaited })?;
    }
    Ok(())
}

// Writes the rows of the published reports.
fn published_reports(rt: &impl Print) -> io::Result<()> {
    println!(rt; "basic report: {}", ReportFrame(&published::BASIC))?;
    println!(rt;
        "engineering report: {}",
        ReportFrame(&published::ENGINEERING)
    )
}

// Writes the rows of the published acknowledgements, in the documents' order.
fn published_acks(rt: &impl Print) -> io::Result<()> {
    for (label, frame, awaited) in published::ACKS {
        println!(rt; "{label}: {}", AckFrame { frame, awaited })?;
    }
    Ok(())
}

// The published commands, in the documents' order.
const COMMANDS: [(&str, Command); 14] = [
    ("EnableConfig", Command::EnableConfig),
    ("EndConfig", Command::EndConfig),
    (
        "SetMaxGates 8, 8, 5 s",
        Command::SetMaxGates {
            moving: 8,
            stationary: 8,
            no_one_secs: 5,
        },
    ),
    ("ReadParameters", Command::ReadParameters),
    ("EngineeringMode on", Command::EngineeringMode(true)),
    ("EngineeringMode off", Command::EngineeringMode(false)),
    (
        "SetSensitivity gate 3, 40, 40",
        Command::SetSensitivity {
            gate: Gate::Index(3),
            moving: 40,
            stationary: 40,
        },
    ),
    (
        "SetSensitivity all, 40, 40",
        Command::SetSensitivity {
            gate: Gate::All,
            moving: 40,
            stationary: 40,
        },
    ),
    ("ReadFirmware", Command::ReadFirmware),
    ("SetBaud 256000", Command::SetBaud(Baud::B256000)),
    ("FactoryReset", Command::FactoryReset),
    ("Restart", Command::Restart),
    ("Bluetooth on", Command::Bluetooth(true)),
    ("ReadMac", Command::ReadMac),
];

// Writes the rows of the published commands.
fn sent_commands(rt: &impl Print) -> io::Result<()> {
    for (label, command) in COMMANDS {
        println!(rt; "{label}, {}", Sent(command))?;
    }
    Ok(())
}

// Writes the rows of a module under calibration, and of state bytes to either side: request 3.
fn calibration(rt: &impl Print) -> io::Result<()> {
    let frame = tried::B;
    for state in [3, 4, 5, 6, 7, 0x0D] {
        let row = InState { frame, state };
        println!(rt; "B, state {state:02X}: {row}")?;
    }
    let frame = published::ENGINEERING;
    println!(rt;
        "engineering report, state 05: {}",
        InState { frame, state: 5 }
    )
}

fn main(rt: HostRuntime) -> io::Result<()> {
    tried_rows(&rt)?;
    published_reports(&rt)?;
    published_acks(&rt)?;
    sent_commands(&rt)?;
    calibration(&rt)
}
