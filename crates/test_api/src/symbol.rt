//! Quoted strings in a caller's own writer, which fails, and symbols for a closure.
use crate::checks::{Refusal, Room, equal};
use dns_charstr::charstr::DisplayQuoted;
use dns_symbol::symbol::Symbol;
use dns_symbol::symbols::Symbols;
use std::fmt::Write;

#[test]
fn fails_where_a_writer_does(rt: HostRuntime) {
    let octets = [0xFF; 1000];
    for room in [0, 1, 255, 256, 257, 4001, 4002] {
        let answer = write!(Room(room), "{}", DisplayQuoted::from_slice(&octets));
        equal(&rt, &answer.is_ok(), &(room == 4002));
    }
}

#[test]
fn answers_with_a_closure(rt: HostRuntime) {
    let two = Symbols::with(r"ab\2".chars(), |symbols| -> Result<_, Refusal> {
        Ok((symbols.next(), symbols.next()))
    });
    let wanted = (Some(Symbol::Char('a')), Some(Symbol::Char('b')));
    equal(&rt, &two, &Ok(wanted));
    let all = Symbols::with(r"ab\2".chars(), |symbols| -> Result<_, Refusal> {
        for _ in symbols {}
        Ok(())
    });
    equal(&rt, &all, &Err(Refusal::Custom("unexpected end of input")));
    let refused = Symbols::with(r"ab\2".chars(), |symbols| -> Result<(), Refusal> {
        for _ in symbols {}
        Err(Refusal::ShortBuf)
    });
    equal(&rt, &refused, &Err(Refusal::ShortBuf));
}
