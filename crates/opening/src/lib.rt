#![tactic(auto)]

// The opening of a call: the checks of its files and of the lent state, in the order of document 01.
ghost use Rattle.std.specs.Prelude.{◌≡◌, ◌≤◌, length, replicate};
ghost use Rattle.opening.specs.Filled.{OpenWith, NetworkFilled, FilesFilled, StateFilled};
ghost use Rattle.opening.specs.Opening.{Held, Over};

use lookup::Net;
use model::{Reason, Refusal};
use places::{Plan, Site};
use states::Basis;
use table::Counts;
use token_file::Feed;

// What is found: the counts of the filled table, and the state's size.
#[derive(Clone, Copy)]
pub struct Opened {
    pub counts: Counts,
    pub size: usize,
}

// The network file: its check, its table, and where each part of a state begins.
pub fn open_network(net: &[u8], table: &mut [u16], starts: &mut [u16]) -> Result<Opened, Refusal>
    requires table_room { 656 ≤ length table.old }
    requires starts_room { 113 ≤ length starts.old }
    ensures { NetworkFilled net.now table.new starts.new result }
{
    let counts = network::checked(net, table)?;
    let net = Net {
        file: net,
        table,
        counts,
    };
    let size = places::places(&net, starts);
    Ok(Opened { counts, size })
}

// The network file and its token file: where each input's field begins is noted too.
pub fn open_files(
    net: &[u8],
    tokens: &[u8],
    table: &mut [u16],
    starts: &mut [u16],
    fields: &mut [u16],
) -> Result<Opened, Refusal>
    requires table_room { 656 ≤ length table.old }
    requires starts_room { 113 ≤ length starts.old }
    requires fields_room { 8 ≤ length fields.old }
    ensures { FilesFilled net.now tokens.now table.new starts.new fields.new result }
{
    let opened = open_network(net, table, starts)?;
    let net = Net {
        file: net,
        table,
        counts: opened.counts,
    };
    token_file::token_file(&net, tokens, fields).map_err(|place| Refusal {
        reason: Reason::Tokens,
        place,
    })?;
    Ok(opened)
}

// What is opened, as one value over the files and the filled tables.
fn feed_of<'a>(
    net: &'a [u8],
    tokens: &'a [u8],
    table: &'a [u16],
    starts: &'a [u16],
    fields: &'a [u16],
    opened: Opened,
) -> Feed<'a>
    requires { OpenWith net.now tokens.now table.now starts.now fields.now opened.counts opened.size }
    ensures { Over net.entry tokens.entry table.now starts.now fields.now opened.counts result }
{
    let net = Net {
        file: net,
        table,
        counts: opened.counts,
    };
    let plan = Plan { net, starts };
    Feed {
        site: Site { plan, tokens },
        fields,
    }
}

// The lent state: long enough, and a state of the network; taken counts are looked at where the basis counts them.
pub fn held(basis: &Basis, state: &[u8]) -> Result<(), Refusal>
    ensures { Held basis.now state.now result }
{
    let size = states::size(basis.plan());
    if state.len() < size {
        return Err(Refusal {
            reason: Reason::Space,
            place: size,
        });
    }
    if !states::state_fits(basis, state) {
        return Err(Refusal {
            reason: Reason::State,
            place: 0,
        });
    }
    Ok(())
}

// The files and the lent state of a call that goes on with it: taken counts are looked at.
pub fn open_state(
    net: &[u8],
    tokens: &[u8],
    table: &mut [u16],
    starts: &mut [u16],
    fields: &mut [u16],
    state: &[u8],
) -> Result<Opened, Refusal>
    requires table_room { 656 ≤ length table.old }
    requires starts_room { 113 ≤ length starts.old }
    requires fields_room { 8 ≤ length fields.old }
    ensures { StateFilled net.now tokens.now table.new starts.new fields.new state.now result }
{
    let opened = open_files(net, tokens, table, starts, fields)?;
    let feed = feed_of(net, tokens, table, starts, fields, opened);
    held(&Basis::Files(feed), state)?;
    Ok(opened)
}

// What an opening fills: where the fields of a network file stand, where the parts of a state begin, and where the fields of a token file stand.
#[derive(Drop)]
pub struct Tables {
    pub table: [u16; 656],
    pub starts: [u16; 113],
    pub fields: [u16; 8],
}

impl Tables {
    ghost use Rattle.std.specs.Prelude.{IfOk};
    ghost use Rattle.opening.specs.Opening.{NetworkOpened, FilesOpened, StateOpened};

    // Tables that are yet to be filled.
    pub fn new() -> Tables
        ensures { (result.table ≡ replicate 656 0) × (result.starts ≡ replicate 113 0) × (result.fields ≡ replicate 8 0) }
    {
        Tables {
            table: [0; 656],
            starts: [0; 113],
            fields: [0; 8],
        }
    }

    // The network file of a call, over these tables.
    pub fn open_network<'a>(&'a mut self, net: &'a [u8]) -> Result<Plan<'a>, Refusal>
        ensures opened { NetworkOpened net.now result }
        ensures that_file { IfOk result (λ p. p.net.file ≡ net.entry) }
    {
        let opened = open_network(net, &mut self.table, &mut self.starts)?;
        let net = Net {
            file: net,
            table: &self.table,
            counts: opened.counts,
        };
        Ok(Plan {
            net,
            starts: &self.starts,
        })
    }

    // The network file and its token file, over these tables.
    pub fn open_files<'a>(
        &'a mut self,
        net: &'a [u8],
        tokens: &'a [u8],
    ) -> Result<Feed<'a>, Refusal>
        ensures opened { FilesOpened net.now tokens.now result }
        ensures those_files { IfOk result (λ f. (f.site.plan.net.file ≡ net.entry) × (f.site.tokens ≡ tokens.entry)) }
    {
        let opened = open_files(
            net,
            tokens,
            &mut self.table,
            &mut self.starts,
            &mut self.fields,
        )?;
        Ok(feed_of(net, tokens, &self.table, &self.starts, &self.fields, opened))
    }

    // The files and the lent state of a call that goes on with it, over these tables.
    pub fn open_state<'a>(
        &'a mut self,
        net: &'a [u8],
        tokens: &'a [u8],
        state: &[u8],
    ) -> Result<Feed<'a>, Refusal>
        ensures opened { StateOpened net.now tokens.now state.now result }
        ensures those_files { IfOk result (λ f. (f.site.plan.net.file ≡ net.entry) × (f.site.tokens ≡ tokens.entry)) }
    {
        let opened = open_state(
            net,
            tokens,
            &mut self.table,
            &mut self.starts,
            &mut self.fields,
            state,
        )?;
        Ok(feed_of(net, tokens, &self.table, &self.starts, &self.fields, opened))
    }
}
