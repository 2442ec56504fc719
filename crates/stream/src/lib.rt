// The stream of the LD2410's link: which strings are open and which are whole frames, what a whole frame delivers, and
// what the counters count. The crate has definitions and laws; its only code tests a length. Each function of this file
// is empty and never called: its contract pins claims of specs/Claims.antt.

#![tactic(auto)]

mod limit;

ghost use Rattle.stream.specs.Claims.{WholeFramed, StrayBytes};
ghost use Rattle.stream.specs.Claims.{DividesOnce, DivisionSpelled, DivisionLength, UnfinishedOpen};
ghost use Rattle.stream.specs.Claims.{DivisionAppend, TotalAppend, EndsForGood, ResyncsBound, ResyncsReached};
ghost use Rattle.stream.specs.Claims.{BadLength, BrokenTail};
ghost use Rattle.stream.specs.Claims.{DecodesWhole, DeliversWhole, DeliversParsed};
ghost use Rattle.stream.specs.Claims.{AnyClean, AnyRecovers, AnyFound, AnyRegains, NotSooner, NotSoonerAt244};

pub use limit::in_range;

// Pins that a whole frame is what framing its data gives, and that a stray byte is neither F4 nor FD.
fn framing_claims()
    ensures framed { WholeFramed }
    ensures stray { StrayBytes }
{}

// Pins what a division is (`once`, `spelled`, `length`, `unfinished`); what more bytes do to it (`append`, `total`,
// `ends`); how often a stream can break (`bound`), and that some break so often (`reached`).
fn division_claims()
    ensures once { DividesOnce }
    ensures spelled { DivisionSpelled }
    ensures length { DivisionLength }
    ensures unfinished { UnfinishedOpen }
    ensures append { DivisionAppend }
    ensures total { TotalAppend }
    ensures ends { EndsForGood }
    ensures bound { ResyncsBound }
    ensures reached { ResyncsReached }
{}

// Pins where a broken start ends: document 01's traps of the stream.
fn trap_claims()
    ensures bad_length { BadLength }
    ensures broken_tail { BrokenTail }
{}

// Pins that a whole frame decodes, and delivers, as its data do.
fn delivery_claims()
    ensures decodes { DecodesWhole }
    ensures delivers { DeliversWhole }
    ensures parsed { DeliversParsed }
{}

// Pins how soon the stream is read right again, and that one byte less is not enough.
fn recovery_claims()
    ensures clean { AnyClean }
    ensures recovers { AnyRecovers }
    ensures found { AnyFound }
    ensures regains { AnyRegains }
    ensures not_sooner { NotSooner }
    ensures at_244 { NotSoonerAt244 }
{}
