#![tactic(auto)]

// The text that the run program prints for two files: a load, a run with budget 1,000, the outcome and what each output got, or the refusal.
ghost use Rattle.std.specs.Prelude.{◌≡◌, ◌≤◌, ◌++◌, length};
ghost use Rattle.model.specs.Printing.{outcome_line, refused_line};
ghost use Rattle.model.specs.Reasons.{reason_number};
ghost use Rattle.printing.specs.Lines.{lines_in};
ghost use Rattle.printing.specs.Pages.{page, laid};
ghost use Rattle.printing.specs.Wrote.{Wrote};
ghost use Rattle.running.specs.Texts.{refusal_of, Printed};

use model::{Ran, Reason, Refusal};
use printing::Page;

// The refusal of a run that did not begin.
fn refusal_of(answer: Result<Ran, Refusal>) -> Refusal
    ensures { result ≡ refusal_of answer }
{
    match answer {
        Err(refusal) => refusal,
        Ok(_) => Refusal {
            reason: Reason::Form,
            place: 0,
        },
    }
}

// The outcome of a run that began, and what each output got.
fn print_ended(page: &mut Page, ran: Ran, net: &[u8], tokens: &[u8], state: &[u8])
    ensures { Wrote (outcome_line ran.ending ran.cycles ++ lines_in net.now tokens.now state.now) page.old page.new }
{
    page.outcome(ran.ending, ran.cycles);
    page.state(net, tokens, state);
}

// The same at a buffer's start; answers the text's length.
fn ended_text(text: &mut [u8], ran: Ran, net: &[u8], tokens: &[u8], state: &[u8]) -> usize
    ensures { page result text.new ≡ laid (outcome_line ran.ending ran.cycles ++ lines_in net.now tokens.now state.now) (page 0 text.old) }
{
    let mut page = Page { buf: text, at: 0 };
    print_ended(&mut page, ran, net, tokens, state);
    page.at
}

// The line of a refusal at a buffer's start; answers the text's length.
fn refused_text(text: &mut [u8], refusal: Refusal) -> usize
    ensures { page result text.new ≡ laid (refused_line (reason_number refusal.reason) refusal.place) (page 0 text.old) }
{
    let mut page = Page { buf: text, at: 0 };
    page.refused(refusal);
    page.at
}

// The whole text, at the buffer's start; answers its length. A load that is refused leaves the state as it was, and the run is then refused alike.
pub fn run_text(net: &[u8], tokens: &[u8], state: &mut [u8], text: &mut [u8]) -> usize
    requires in_bounds { 61088 ≤ length state.old }
    requires in_bounds_2 { 184275 ≤ length text.old }
    ensures { Printed net.now tokens.now text.old text.new result }
{
    let _ = bench::load(net, tokens, state);
    let answer = bench::run(net, tokens, state, 1000);
    let Ok(ran) = answer else {
        return refused_text(text, refusal_of(answer));
    };
    ended_text(text, ran, net, tokens, state)
}
