// The answers of an acknowledgement: `expect` of a word and the four replies, each its refusal and then its fields.
use crate::values::answer;
use ld2410::{Ack, Error, Parameters};
use refusal::refusal_number;
use replay_io::line::Text;

// Puts `expect` of the awaited word, then the replies, for an acknowledgement whose payload is in `bytes`.
pub fn all(out: &mut Text, ack: Ack, awaited: u16, bytes: &[u8]) {
    answer(out, ack.expect(awaited));
    answer(out, ack.enable_config(bytes));
    answer(out, ack.firmware_version(bytes));
    answer(out, ack.mac(bytes));
    parameters(out, ack.parameters(bytes));
}

// Puts the parameters. Where they are refused, every field is 0 but `gates`, the accessor, which is 1.
fn parameters(out: &mut Text, reply: Result<Parameters, Error>) {
    out.number(refusal_number(reply));
    let Ok(parameters) = reply else {
        out.numbers(&[0u8; 22]);
        out.number(1u8);
        return;
    };
    out.number(parameters.max_gate);
    out.number(parameters.max_moving_gate);
    out.number(parameters.max_stationary_gate);
    out.numbers(&parameters.moving_sensitivity);
    out.numbers(&parameters.stationary_sensitivity);
    out.number(parameters.no_one_secs);
    out.number(parameters.gates());
}
