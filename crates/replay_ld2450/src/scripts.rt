// Op 32: a script of calls on one parser, handed on from call to call. Each call puts a line; a closing line follows.
use crate::targets;
use ld2450_parser::{Fed, Parser, TARGETS, Taken, Target};
use replay_io::line::Text;
use replay_io::script::{Call, Script};

// Makes the calls of a script, up to one that is cut short or has no meaning.
pub fn run(out: &mut Text, op: u8, script: &[u8]) {
    let mut parser = Parser::new();
    for call in Script(script) {
        let fed = make(parser, call);
        answered(out, op, fed.answer);
        parser = fed.parser;
    }
    closing(out, op, parser);
}

// Makes a call. A reset takes no byte and has no frame.
fn make(parser: Parser, call: Call) -> Fed<Taken> {
    match call {
        Call::Byte(byte) => {
            let fed = parser.fed(byte);
            Fed {
                parser: fed.parser,
                answer: Taken {
                    count: 1,
                    frame: fed.answer,
                },
            }
        }
        Call::Slice(bytes) => parser.fed_slice(bytes),
        Call::Reset => Fed {
            parser: parser.cleared(),
            answer: Taken {
                count: 0,
                frame: None,
            },
        },
    }
}

// Puts the line of a call: the bytes taken, whether there is a frame, and its targets.
fn answered(out: &mut Text, op: u8, call: Taken) {
    out.op(op);
    out.number(call.count);
    out.number(call.frame.is_some());
    targets::put(out, call.frame.unwrap_or([Target::default(); TARGETS]));
    out.end();
}

// Puts the closing line: the counters, and the length of the frame in progress.
fn closing(out: &mut Text, op: u8, parser: Parser) {
    let stats = parser.stats();
    out.op(op);
    out.numbers(&[stats.frames, stats.resyncs, stats.dropped]);
    out.number(parser.unfinished());
    out.end();
}
