#![tactic(auto)]

// What the run program prints, written into a lent buffer.
ghost use Rattle.std.specs.Prelude.{◌≡◌, [], ◌∷◌, ◌<◌, ◌^◌, drop};
ghost use Rattle.std.specs.Int.Signed.{mag};
ghost use Rattle.model.specs.Bytes.{two_at};
ghost use Rattle.model.specs.Reasons.{reason_number};
ghost use Rattle.model.specs.States.{read_tokens};
ghost use Rattle.model.specs.Printing.{decimal, signed, shown, ending_word, box_part, spaced, outcome_line, output_line, output_lines, refused_line};
ghost use Rattle.places.specs.Views.{net_at, state_at, Stands};
ghost use Rattle.printing.specs.Lines.{lines_in};
ghost use Rattle.printing.specs.Wrote.{Wrote};

use model::{Ending, ProcessId, Refusal, Token};
use opening::Tables;
use places::Site;

// A lent buffer with the place where the next byte goes; where it is full, it stays as it is. No `fmt::Write` with `Display`: these promise a text only where
// writing succeeds, and never that it does, and here nothing can fail.
#[derive(Drop)]
pub struct Page<'a> {
    pub buf: &'a mut [u8],
    pub at: usize,
}

impl<'a> Page<'a> {
    // One byte.
    fn byte(&mut self, byte: u8)
        ensures { Wrote (byte ∷ []) self.old self.new }
    {
        if self.at < self.buf.len() {
            self.buf[self.at] = byte;
            self.at += 1;
        }
    }

    // All bytes of a text.
    fn text(&mut self, text: &[u8])
        ensures { Wrote text.now self.old self.new }
    {
        for &byte in text {
            self.byte(byte);
        }
    }

    // A number: its digits from the last one on, in an array that holds all that a number of 64 bits can have.
    // (A while: how many turns there are is for the divisions to say.)
    fn decimal(&mut self, number: u64)
        ensures { Wrote (decimal number) self.old self.new }
    {
        let mut digits = [0u8; 20];
        let mut n = number;
        let mut first: usize = 19;
        while 0 < first && 10 <= n {
            digits[first] = (48 + n % 10) as u8;
            n /= 10;
            first -= 1;
        }
        digits[first] = (48 + n % 10) as u8;
        self.text(&digits[first..20]);
    }

    // A value: a minus before a negative one.
    fn signed(&mut self, value: i64)
        ensures { Wrote (signed value) self.old self.new }
    {
        if value < 0 {
            self.byte(b'-');
        }
        self.decimal(value.unsigned_abs());
    }

    // A token: a dc token begins with an apostrophe.
    fn token(&mut self, token: Token)
        requires { mag token.value < 2 ^ 31 }
        ensures { Wrote (shown token) self.old self.new }
    {
        match token.tag {
            0 => self.signed(token.value),
            1 => self.text(b"'<"),
            2 => self.text(b"'>"),
            _ => {
                self.byte(b'\'');
                self.signed(token.value);
            }
        }
    }

    // The word of an ending.
    fn word(&mut self, ending: Ending)
        ensures { Wrote (ending_word ending) self.old self.new }
    {
        match ending {
            Ending::Idle => self.text(b"idle"),
            Ending::Spent => self.text(b"spent"),
            Ending::Fault { .. } => self.text(b"fault"),
        }
    }

    // The box of a fault; nothing for another ending.
    fn box_of(&mut self, ending: Ending)
        ensures { Wrote (box_part ending) self.old self.new }
    {
        if let Ending::Fault { place, .. } = ending {
            self.text(b" box ");
            self.decimal(u64::from(place));
        }
    }

    // The first line of a run that was done: how it ended, the cycles done, the box of a fault.
    pub fn outcome(&mut self, ending: Ending, cycles: u32)
        ensures { Wrote (outcome_line ending cycles) self.old self.new }
    {
        self.text(b"outcome ");
        self.word(ending);
        self.text(b" cycles ");
        self.decimal(u64::from(cycles));
        self.box_of(ending);
        self.byte(b'\n');
    }

    // The only line of a refusal.
    pub fn refused(&mut self, refusal: Refusal)
        ensures { Wrote (refused_line (reason_number refusal.reason) refusal.place) self.old self.new }
    {
        self.text(b"refused ");
        self.decimal(u64::from(refusal.reason.number()));
        self.text(b" place ");
        self.decimal(refusal.place as u64);
        self.byte(b'\n');
    }

    // The tokens that an output's bytes hold, each behind a space.
    fn got(&mut self, part: &[u8])
        ensures { Wrote (spaced (read_tokens (two_at part.now 0) (drop 2 part.now))) self.old self.new }
    {
        let count = octets::two_at(part, 0);
        for i in 0..count {
            self.byte(b' ');
            self.token(queues::token_at(part, 2 + 5 * i));
        }
    }

    // The line of output i, from the output's bytes.
    fn output(&mut self, i: u64, part: &[u8])
        ensures { Wrote (output_line i (read_tokens (two_at part.now 0) (drop 2 part.now))) self.old self.new }
    {
        self.text(b"out ");
        self.decimal(i);
        self.byte(b':');
        self.got(part);
        self.byte(b'\n');
    }

    // A line for each output of a state that stands.
    pub fn outputs(&mut self, site: &Site, state: &[u8])
        requires { Stands site.now state.now }
        ensures { Wrote (output_lines 0 (net_at site.now).procs (state_at site.now state.now).owns) self.old self.new }
    {
        let c = site.plan.net.counts;
        let first = c.boxes + c.inputs;
        for i in 0..c.outputs {
            let part = sights::own_part(site, ProcessId((first + i) as u8), state);
            self.output(i as u64, part);
        }
    }

    // The lines of the outputs from the files and the lent state alone; nothing for bytes that hold no state.
    pub fn state(&mut self, net: &[u8], tokens: &[u8], state: &[u8])
        ensures { Wrote (lines_in net.now tokens.now state.now) self.old self.new }
    {
        let mut tables = Tables::new();
        if let Ok(feed) = tables.open_state(net, tokens, state) {
            self.outputs(&feed.site, state);
        }
    }
}
