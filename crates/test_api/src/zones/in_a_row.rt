//! Values in a row, one token each.
use super::{DisplayKind, prints, prints_as};
use dns_zone::tokens::{Each, ZoneToken, ZoneTokens, write_each};
use dns_zone::zonefile_fmt::{self, FormatWriter, Formatter, ZonefileFmt};

/// A flag, printed as a word.
#[derive(Clone, Copy, Drop)]
struct Flag {
    set: bool,
}

impl ZoneToken for Flag {
    ghost use Rattle.std.specs.Prelude.{⊤};
    ghost use Rattle.dns_zone.specs.Rows.{flag_text, flag_token};

    ghost text = { λ f. flag_text f.set };

    ghost holds = { λ _. ⊤ };

    fn write<F: FormatWriter>(&self, p: &mut F) -> zonefile_fmt::Result {
        match self.set {
            true => p.write_token("yes"),
            false => p.write_token("no"),
        }
    }

    fn known(&self) {}

    ghost is_token = { λ f _. flag_token f.set };
}

/// Flags after a separate word.
#[derive(Drop)]
struct Flags<'a> {
    flags: &'a [Flag],
}

impl ZonefileFmt for Flags<'_> {
    ghost use Rattle.std.specs.Prelude.{◌∷◌, codes};
    ghost use Rattle.dns_zone.specs.Each.{each_nested};
    ghost use Rattle.dns_zone.specs.Layout.{token};
    ghost use Rattle.dns_zone.specs.Rows.{flag_text};
    ghost use Rattle.dns_zone.specs.Tokens.{one_each};

    ghost document = { λ x. token (codes "flags") ∷ one_each (λ f. flag_text f.set) x.flags.now };

    ghost nested = { λ x. each_nested (λ f. flag_text f.set) x.flags.now };

    fn fmt<F: FormatWriter>(&self, p: &mut F) -> zonefile_fmt::Result {
        p.write_token("flags")?;
        write_each(p, self.flags)
    }
}

const SET: Flag = Flag { set: true };

const UNSET: Flag = Flag { set: false };

const FLAGS: [Flag; 5] = [SET, UNSET, UNSET, SET, UNSET];

#[test]
fn prints_none_and_many(rt: HostRuntime) {
    let alloc = rt.alloc();
    let spaced = "yes no no yes no";
    let each = Each::new(&FLAGS);
    each.known();
    prints(&rt, alloc, &each, [spaced, "yes\tno\tno\tyes\tno", spaced]);
    prints(&rt, alloc, &Each::new(&[] as &[Flag]), [""; 3]);
}

#[test]
fn prints_many_after_a_word(rt: HostRuntime) {
    let alloc = rt.alloc();
    let flags = FLAGS.repeat(alloc, 1000).expect(&rt, "memory");
    let rest = " yes no no yes no"
        .repeat(alloc, 1000)
        .expect(&rt, "memory");
    let text = format!(in alloc; "flags{rest}").expect(&rt, "memory");
    let all = Flags { flags: &flags };
    prints_as(&rt, alloc, &all, DisplayKind::Simple, text.as_str());
    let none = Flags { flags: &[] };
    prints_as(&rt, alloc, &none, DisplayKind::Simple, "flags");
}
