// What a command meets before it is carried out, judged by reading only: steps 1 to 4. Step 4 has a crate of its own.
#![tactic(auto)]

ghost use Rattle.std.specs.Prelude.{◌≡◌, ◌≤◌, length};
ghost use Rattle.rules.specs.Tables.{head_size, hosts};
ghost use Rattle.operation.specs.Meaning.{meaning, Fitting};
ghost use Rattle.admission.specs.Admitting.{meets_attention, reach_of, others_hold, pending, held, admission};

use operation::Operation;

// What keeps a command from being carried out: attention of its host, what another holds, or a field of the block that is at fault, at its byte.
#[derive(Clone, Copy, PartialEq, Eq)]
pub enum Barrier {
    Pending,
    Held,
    Faulty(usize),
}

// How far step 3 looks for what another host holds.
#[derive(Clone, Copy, PartialEq, Eq)]
enum Reach {
    Nothing,
    Unit,
    Elements,
}

// ---- steps 2 and 3

// "2. Attention pending and not REQUEST SENSE"; step 1 comes before it.
#[tactic(auto, unfolding(crate::specs::Admitting::meets_attention, operation::specs::Meaning::meaning))]
fn meets_attention(op: Operation) -> bool
    ensures { result ≡ meets_attention (meaning op) }
{
    match op {
        Operation::TestUnitReady => true,
        Operation::RequestSense => false,
        Operation::Reserve => true,
        Operation::Release => true,
        Operation::PreventAllow => true,
        Operation::MoveMedium => true,
        Operation::ExchangeMedium => true,
        Operation::ReadElementStatus => true,
        Operation::ModeSense => true,
        Operation::SendVolumeTag => true,
        Operation::RequestVolumeElementAddress => true,
        Operation::Unknown => false,
    }
}

// "3. Unit held by another host .. (never for RELEASE, REQUEST SENSE)"; B5h and B6h: "if any other host holds unit or element"; step 1 comes before it.
#[tactic(auto, unfolding(crate::specs::Admitting::reach_of, operation::specs::Meaning::meaning))]
fn reach_of(op: Operation) -> Reach
    ensures { result ≡ reach_of (meaning op) }
{
    match op {
        Operation::TestUnitReady => Reach::Unit,
        Operation::RequestSense => Reach::Nothing,
        Operation::Reserve => Reach::Unit,
        Operation::Release => Reach::Nothing,
        Operation::PreventAllow => Reach::Unit,
        Operation::MoveMedium => Reach::Unit,
        Operation::ExchangeMedium => Reach::Unit,
        Operation::ReadElementStatus => Reach::Unit,
        Operation::ModeSense => Reach::Unit,
        Operation::SendVolumeTag => Reach::Elements,
        Operation::RequestVolumeElementAddress => Reach::Elements,
        Operation::Unknown => Reach::Nothing,
    }
}

fn pending(op: Operation, head: &[u8], host: u8) -> bool
    requires head_long { head_size ≤ length head.now }
    requires host_known { host ≤ hosts }
    ensures { result ≡ pending (meaning op) head.now host }
{
    if meets_attention(op) {
        return tables::head::attention(head, host) != 0;
    }
    false
}

// "if any other host holds unit or element"
fn others_hold(head: &[u8], elements: &[u8], host: u8) -> bool
    requires head_long { head_size ≤ length head.now }
    ensures { result ≡ others_hold head.now elements.now host }
{
    if order::other(host, tables::head::unit(head)) {
        return true;
    }
    order::any_other(elements, host)
}

// Step 3: no command but those of the search looks at the elements.
fn held(op: Operation, head: &[u8], elements: &[u8], host: u8) -> bool
    requires head_long { head_size ≤ length head.now }
    ensures { result ≡ held (meaning op) head.now elements.now host }
{
    let far = reach_of(op);
    match far {
        Reach::Nothing => false,
        Reach::Unit => order::other(host, tables::head::unit(head)),
        Reach::Elements => others_hold(head, elements, host),
    }
}

// Steps 1 to 4: an operation that is unknown meets none of them, and is refused where the command is chosen. The block has the length of its operation (`Fitting`), as in `form` and `numbers`: a fact of both together.
pub fn judge(
    op: Operation,
    head: &[u8],
    elements: &[u8],
    host: u8,
    block: &[u8],
    list: &[u8],
) -> Result<(), Barrier>
    requires head_long { head_size ≤ length head.now }
    requires host_known { host ≤ hosts }
    requires fitting { Fitting op block.now }
    ensures { result ≡ admission op head.now elements.now host block.now list.now }
{
    if pending(op, head, host) {
        return Err(Barrier::Pending);
    }
    if held(op, head, elements, host) {
        return Err(Barrier::Held);
    }
    match form::fault(op, head, block, list) {
        Some(at) => Err(Barrier::Faulty(at)),
        None => Ok(()),
    }
}
