// Ops 10, 11 and 13, and by the table engine 16 and 17: a script of calls on one parser, handed on from call to call.
// Each call puts a line, and a closing line follows.
use crate::fields::{SCRIPT_AT, parser_in};
use crate::values;
use ld2410::{Fed, Frame, MAX_FRAME, Parser, Span, Taken};
use replay_io::argument::rest;
use replay_io::line::Text;
use replay_io::script::{Call, Script};

// The engine that feeds a parser.
#[derive(Clone, Copy)]
enum Engine {
    Branches,
    Tables,
}

// The run of a script: the op, and the parser that the engine feeds, from the first call on.
#[derive(Clone, Copy)]
pub struct Run<'a> {
    op: u8,
    engine: Engine,
    parser: Parser,
    script: &'a [u8],
}

impl<'a> Run<'a> {
    // Returns the run of an op, if it is one of scripts, and its argument has a parser if it is op 13 or 17. The op is
    // kept as a number, since each line begins with it.
    pub fn of(op: u8, argument: &'a [u8]) -> Option<Run<'a>> {
        let (engine, is_built) = match op {
            10 | 11 => (Engine::Branches, false),
            13 => (Engine::Branches, true),
            16 => (Engine::Tables, false),
            17 => (Engine::Tables, true),
            _ => return None,
        };
        let (parser, script) = if is_built {
            (parser_in(argument)?, rest(argument, SCRIPT_AT))
        } else {
            (Parser::new(), argument)
        };
        Some(Run {
            op,
            engine,
            parser,
            script,
        })
    }

    // Makes the calls, up to one that is cut short or has no meaning.
    pub fn answer(self, out: &mut Text) {
        let mut parser = self.parser;
        for call in Script(self.script) {
            let fed = self.engine.call(parser, call);
            parser = fed.parser;
            line(out, self.op, fed);
        }
        closing(out, self.op, parser);
    }
}

impl Engine {
    // Makes a call.
    fn call(self, parser: Parser, call: Call<'_>) -> Fed<Taken> {
        match call {
            Call::Byte(byte) => self.fed(parser, byte),
            Call::Slice(bytes) => self.fed_slice(parser, bytes),
            Call::Reset => Fed {
                parser: parser.cleared(),
                answer: Taken {
                    count: 0,
                    frame: None,
                },
            },
        }
    }

    // Feeds a byte.
    fn fed(self, parser: Parser, byte: u8) -> Fed<Taken> {
        let fed = match self {
            Engine::Branches => parser.fed(byte),
            Engine::Tables => parser.table_fed(byte),
        };
        Fed {
            parser: fed.parser,
            answer: Taken {
                count: 1,
                frame: fed.answer,
            },
        }
    }

    // Feeds a slice.
    fn fed_slice(self, parser: Parser, bytes: &[u8]) -> Fed<Taken> {
        match self {
            Engine::Branches => parser.fed_slice(bytes),
            Engine::Tables => parser.table_fed_slice(bytes),
        }
    }
}

// Puts the line of a call: its answer, then the bytes of an acknowledgement's payload in the parser's buffer.
fn line(out: &mut Text, op: u8, fed: Fed<Taken>) {
    out.op(op);
    out.number(fed.answer.count);
    values::frame(out, fed.answer.frame);
    if let Some(Frame::Ack(ack)) = fed.answer.frame {
        payload(out, ack.payload, &fed.parser.buf);
    }
    out.end();
}

// Puts the bytes of a payload, as far as they lie in the buffer.
fn payload(out: &mut Text, span: Span, buf: &[u8; MAX_FRAME]) {
    let start = span.start.min(MAX_FRAME);
    let end = start + span.len.min(MAX_FRAME - start);
    out.numbers(&buf[start..end]);
}

// Puts the closing line: the counters, and the length of the frame in progress.
fn closing(out: &mut Text, op: u8, parser: Parser) {
    let stats = parser.stats();
    out.op(op);
    out.number(stats.frames);
    out.number(stats.resyncs);
    out.number(stats.dropped);
    out.number(stats.malformed);
    out.number(parser.unfinished());
    out.end();
}
