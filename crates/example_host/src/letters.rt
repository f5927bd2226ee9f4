//! A host that turns letters of its callers into upper case, in their own data.
ghost use Rattle.std.specs.Prelude.{◌≡◌};
ghost use Rattle.sfi_host.specs.Hosts.{IsAnswered, LeavesOthers};
ghost use Rattle.sfi_host.specs.Hosts.{HasData, SameMemory};
ghost use Rattle.example_host.specs.Letters.{upper};

use rv_mem::Memory;
use sfi_host::{GateAnswer, Gates, Guest};

/// The caller stops, with a0 as its number.
const EXIT: u32 = 0;

/// The caller's text gets upper case.
const UPPER: u32 = 1;

/// How many bytes a text may have: they are copied, and the copy has its room here.
const MOST_TEXT: usize = 64;

/// a0 of a refused call.
const FAILED: u32 = u32::MAX;

/// A host that reads its caller's text, changes it, and writes it back.
///
/// | service | what it does |
/// |---|---|
/// | 0 exit | the caller stops, with a0 as its number |
/// | 1 upper | the a1 bytes from a0 on get upper case, where they are letters of ASCII; a0 becomes a1, or ffffffff where a1 is above 64 or one of these addresses isn't in the caller's data region, and then nothing else changed |
///
/// Of another service a0 becomes ffffffff.
#[derive(Clone, Copy, Debug, PartialEq, Eq)]
pub struct Letters;

impl Letters {
    /// The service upper, as the table of [`Letters`] says. The caller goes on each time.
    fn serve_upper<M: Memory>(&mut self, guest: &mut Guest<'_, M>) -> GateAnswer
        requires has_data { HasData M.bytes guest.old }
        ensures same_reference { SameMemory guest.old guest.new }
        ensures others { LeavesOthers M.bytes guest.old guest.new }
        ensures replied { result ≡ GateAnswer.Replied }
        ensures answered { IsAnswered (upper self.old) M.bytes guest.old guest.new self.new result }
    {
        let (at, count) = (guest.arg0(), guest.arg1() as usize);
        let mut room = [0; MOST_TEXT];
        if count > MOST_TEXT || !guest.read(at, &mut room[..count]) {
            guest.set0(FAILED);
            return GateAnswer::Replied;
        }
        let text = &mut room[..count];
        text.make_ascii_uppercase();
        guest.write(at, text);
        guest.set0(count as u32);
        GateAnswer::Replied
    }
}

impl Gates for Letters {
    ghost use Rattle.example_host.specs.Letters.{letters, letters_may_refuse};

    ghost answer = { letters };

    ghost may_refuse = { letters_may_refuse };

    fn call<M: Memory>(&mut self, guest: &mut Guest<'_, M>) -> GateAnswer {
        match guest.service() {
            EXIT => GateAnswer::Exit(guest.arg0()),
            UPPER => self.serve_upper(guest),
            _ => {
                guest.set0(FAILED);
                GateAnswer::Replied
            }
        }
    }
}
