// Spans: where a payload lies in bytes, and its bytes.
ghost use Rattle.std.specs.Prelude.{◌≡◌};
ghost use Rattle.ack.specs.Span.{payload_in};

// The place of a payload in the bytes that hold it: its start and its length. It stays two numbers, and no slice, since
// `payload_in` answers any two: "a payload not inside them counts as empty".
#[derive(Clone, Copy)]
pub struct Span {
    pub start: usize,
    pub len: usize,
}

// Returns the bytes of a payload, or none if the span is not inside `bytes`. A span may have any two numbers, whose sum
// need not fit.
#[tactic(auto, unfolding(crate::specs::Span::payload_in))]
pub(crate) fn payload<'a>(bytes: &'a [u8], span: Span) -> &'a [u8]
    ensures found { result.now ≡ payload_in bytes.now span }
{
    let Some(rest) = bytes.get(span.start..) else {
        return &bytes[..0];
    };
    let Some(payload) = rest.get(..span.len) else {
        return &bytes[..0];
    };
    payload
}
