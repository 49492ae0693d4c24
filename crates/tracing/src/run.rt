//! Runs of a body, with the terms of values in a table.

ghost use Rattle.std.specs.Prelude.{◌≡◌, ◌<◌, ℕ, List, IfOk, OnOk, All, length, map, slice_get, Some};
ghost use Rattle.std.specs.Option.{option_map};
ghost use Rattle.meaning.specs.Terms as terms;
ghost use Rattle.meaning.specs.Terms.{Term};
ghost use Rattle.meaning.specs.Machine as machine;
ghost use Rattle.meaning.specs.Machine.{State};
ghost use Rattle.llvm_core.specs.Data.{TypeTree, type_at, type_trees};
ghost use Rattle.tracing.specs.Types.{HasTypesBelow};
ghost use Rattle.tracing.specs.Table.{AreTyped, HasPartsBelow, HasTypeBelow, node_term};
ghost use Rattle.tracing.specs.Contents.{Contents, contents_of, over};
ghost use Rattle.tracing.specs.Table as table;
ghost use Rattle.tracing.specs.Bodies.{same_slot, source_of, action_of, row_of, moves_from, given, params_at, code_of, start_of, IsKnownSource, IsKnownGiven, IsKnownRow, IsKnownEdge, IsKnownBlock};
ghost use Rattle.tracing.specs.Runs.{is_built, with_each, IsAt, IsRunOver, Names, AllNamed, Keeps, IsJumped, ShowsItem, HasTables, items_of};

use crate::body::{Action, Block, Body, Code, Edge, Row, Slot, Source};
use crate::table::{TermNode, TermTable};
use crate::trace::{Trace, TraceItem, Types};
use indexmap::IndexMap;
use kinds::op::Op;
use kinds::rules::Family;
use std::alloc::{AllocError, Global};
use support::items::Items;

/// A run so far: the block it is in, the place of each value's term, how many events there were, and what was shown.
#[derive(Drop)]
pub struct Run {
    alloc: Global,
    table: TermTable,
    env: IndexMap<Slot, u32>,
    block: u32,
    count: u32,
    items: Vec<TraceItem>,
}

/// The place of a term that the table may not have yet.
fn intern(run: &mut Run, node: TermNode) -> Result<u32, AllocError>
    requires { HasPartsBelow (length run.old.table) node }
    ensures at { IfOk result (λ k. (c : Contents) → (s : State Slot) → HasTypeBelow (length c.types) node → IsAt c run.old s → IsAt c run.new s) }
    ensures named { IfOk result (λ k. (trees : List TypeTree) → Names trees run.new.table k (node_term trees (table.terms trees run.old.table) node)) }
    ensures kept { OnOk result ((trees : List TypeTree) → Keeps trees run.old.table run.new.table) }
{
    run.table.intern(node)
}

/// Gives a value the term at a place.
fn set(run: &mut Run, slot: Slot, place: u32) -> Result<(), AllocError>
    ensures table { OnOk result (run.new.table ≡ run.old.table) }
    ensures at { OnOk result ((c : Contents) → (s : State Slot) → (t : Term) → IsAt c run.old s → Names c.types run.old.table place t → IsAt c run.new (machine.set_in Slot same_slot s slot t)) }
{
    run.env.insert(slot, place)?;
    Ok(())
}

/// Shows an item.
fn note(run: &mut Run, item: TraceItem) -> Result<(), AllocError>
    ensures table { OnOk result (run.new.table ≡ run.old.table) }
    ensures at { OnOk result ((c : Contents) → (s : State Slot) → (i : machine.Item) → IsAt c run.old s → ShowsItem c.types run.old.table item i → IsAt c run.new (machine.shows Slot same_slot s i)) }
{
    run.items.push(item)?;
    Ok(())
}

/// The place of a value's term, which is unset where it has none.
fn read_slot(run: &mut Run, slot: Slot) -> Result<u32, AllocError>
    ensures at { IfOk result (λ k. (c : Contents) → (s : State Slot) → IsAt c run.old s → IsAt c run.new s × Names c.types run.new.table k (s.env slot)) }
    ensures kept { OnOk result ((trees : List TypeTree) → Keeps trees run.old.table run.new.table) }
{
    let found = run.env.get(&slot).copied();
    match found {
        Some(place) => Ok(place),
        None => intern(run, TermNode::Unset),
    }
}

/// The place of an operand's term.
fn read(run: &mut Run, source: Source) -> Result<u32, AllocError>
    ensures at { IfOk result (λ k. (c : Contents) → (s : State Slot) → IsKnownSource c source → IsAt c run.old s → IsAt c run.new s × Names c.types run.new.table k (machine.read s.env (source_of c.terms source))) }
    ensures kept { OnOk result ((trees : List TypeTree) → Keeps trees run.old.table run.new.table) }
{
    match source {
        Source::At(slot) => read_slot(run, slot),
        Source::Fixed(place) => Ok(place),
    }
}

/// The places of the terms of operands.
fn read_all(run: &mut Run, sources: &[Source]) -> Result<Vec<u32>, AllocError>
    requires { IsRunOver (λ c. All (IsKnownSource c) sources.now) run.old }
    ensures at { IfOk result (λ ks. (c : Contents) → (s : State Slot) → All (IsKnownSource c) sources.now → IsAt c run.old s → IsAt c run.new s × AllNamed c.types run.new.table ks.items (map (machine.read s.env) (map (source_of c.terms) sources.now))) }
    ensures within { IfOk result (λ ks. All (λ k. k < length run.new.table) ks.items) }
{
    let mut places = Vec::new(run.alloc);
    for source in sources {
        let place = read(run, *source)?;
        places.push(place)?;
    }
    Ok(places)
}

/// A value holds a constant.
fn hold(run: &mut Run, slot: Slot, place: u32) -> Result<(), AllocError>
    ensures { OnOk result ((c : Contents) → (s : State Slot) → place < length c.terms → IsAt c run.old s → IsAt c run.new (machine.set_in Slot same_slot s slot (table.term_at c.terms place))) }
{
    set(run, slot, place)
}

/// A value is the expression of a silent row.
fn build(
    run: &mut Run,
    slot: Slot,
    op: Op,
    types: &Types,
    places: Vec<u32>,
) -> Result<(), AllocError>
    requires { All (λ k. k < length run.old.table) places.items }
    ensures { OnOk result ((c : Contents) → (s : State Slot) → (ts : List Term) → HasTypesBelow (length c.types) types.now → IsAt c run.old s → AllNamed c.types run.old.table places.items ts
        → IsAt c run.new (machine.set_in Slot same_slot s slot (terms.Expr op (type_at c.types types.now.result) (terms.terms_of ts)))) }
{
    let node = TermNode::Expr {
        op,
        ty: types.result,
        operands: Items::from_vec(places),
    };
    let place = intern(run, node)?;
    set(run, slot, place)
}

fn copy_types(alloc: Global, types: &Types) -> Result<Types, AllocError>
    ensures { IfOk result (λ copy. copy ≡ types.now) }
{
    let operands = Vec::from_slice(alloc, types.operands.as_slice())?;
    Ok(Types {
        result: types.result,
        operands: Items::from_vec(operands),
    })
}

/// Shows an event, whose answer is the result.
fn show(
    run: &mut Run,
    slot: Slot,
    op: Op,
    types: &Types,
    places: Vec<u32>,
) -> Result<(), AllocError>
    ensures { OnOk result ((c : Contents) → (s : State Slot) → (ts : List Term) → HasTypesBelow (length c.types) types.now → IsAt c run.old s → AllNamed c.types run.old.table places.items ts
        → IsAt c run.new (machine.answered Slot same_slot s slot (machine.Event op (type_at c.types types.now.result) (map (type_at c.types) types.now.operands) ts))) }
{
    let count = run.count;
    if count >= u32::MAX {
        return Err(AllocError);
    }
    let event = TraceItem::Event {
        op,
        types: copy_types(run.alloc, types)?,
        operands: places,
    };
    note(run, event)?;
    let place = intern(run, TermNode::Answer(count))?;
    set(run, slot, place)?;
    run.count = count + 1;
    Ok(())
}

/// Whether a row only builds an expression.
fn is_silent(op: Op) -> bool
    ensures { result ≡ is_built (terms.family op) }
{
    match op.rule().family {
        Family::Shows => false,
        Family::Builds => true,
    }
}

/// A row.
fn apply(run: &mut Run, row: &Row) -> Result<(), AllocError>
    requires { IsRunOver (λ c. IsKnownRow c row.now) run.old }
    ensures { OnOk result ((c : Contents) → (s : State Slot) → IsKnownRow c row.now → IsAt c run.old s → IsAt c run.new (machine.apply Slot same_slot s row.now.result (action_of c row.now.action))) }
{
    match &row.action {
        Action::Holds(place) => hold(run, row.result, *place),
        Action::Applies {
            op,
            types,
            operands,
        } => {
            let places = read_all(run, operands.as_slice())?;
            if is_silent(*op) {
                build(run, row.result, *op, types, places)
            } else {
                show(run, row.result, *op, types, places)
            }
        }
    }
}

/// The rows of a block.
fn straight(run: &mut Run, rows: &[Row]) -> Result<(), AllocError>
    requires { IsRunOver (λ c. All (IsKnownRow c) rows.now) run.old }
    ensures { OnOk result ((c : Contents) → (s : State Slot) → All (IsKnownRow c) rows.now → IsAt c run.old s → IsAt c run.new (machine.straight Slot same_slot s (map (row_of c) rows.now))) }
{
    for row in rows {
        apply(run, row)?;
    }
    Ok(())
}

/// What an edge hands to the phi or argument at a place, None where it hands nothing.
fn given_at(sources: &[Option<Source>], at: usize) -> Option<Source>
    ensures source { (ts : List Term) → option_map (source_of ts) result ≡ given ts sources.now at }
    ensures known { (c : Contents) → All (IsKnownGiven c) sources.now → IsKnownGiven c result }
{
    match sources.get(at) {
        Some(source) => *source,
        None => None,
    }
}

/// The place of what an edge hands to a phi or argument, which is unset where it hands nothing.
fn read_given(run: &mut Run, source: Option<Source>) -> Result<u32, AllocError>
    ensures at { IfOk result (λ k. (c : Contents) → (s : State Slot) → IsKnownGiven c source → IsAt c run.old s → IsAt c run.new s × Names c.types run.new.table k (machine.read_move s.env (option_map (source_of c.terms) source))) }
    ensures kept { OnOk result ((trees : List TypeTree) → Keeps trees run.old.table run.new.table) }
{
    match source {
        Some(source) => read(run, source),
        None => intern(run, TermNode::Unset),
    }
}

/// The places of what an edge hands to phis or arguments.
fn read_moves(
    run: &mut Run,
    params: &[Slot],
    sources: &[Option<Source>],
) -> Result<Vec<u32>, AllocError>
    ensures at { IfOk result (λ ks. (c : Contents) → (s : State Slot) → All (IsKnownGiven c) sources.now → IsAt c run.old s → IsAt c run.new s × AllNamed c.types run.new.table ks.items (map (λ m. machine.read_move s.env m.1) (moves_from c.terms 0 params.now sources.now))) }
    ensures len { IfOk result (λ ks. length ks.items ≡ length params.now) }
{
    let mut places = Vec::new(run.alloc);
    for at in 0..params.len() {
        let place = read_given(run, given_at(sources, at))?;
        places.push(place)?;
    }
    Ok(places)
}

/// Gives values the terms at places, each in turn.
fn set_all(run: &mut Run, slots: &[Slot], places: &[u32]) -> Result<(), AllocError>
    requires { length places.now ≡ length slots.now }
    ensures { OnOk result ((c : Contents) → (s : State Slot) → (ts : List Term) → IsAt c run.old s → AllNamed c.types run.old.table places.now ts → IsAt c run.new (with_each s slots.now ts)) }
{
    for at in 0..slots.len() {
        set(run, slots[at], places[at])?;
    }
    Ok(())
}

/// What an edge hands to the phis or arguments of its target, all read before any is set.
fn move_all(run: &mut Run, params: &[Slot], sources: &[Option<Source>]) -> Result<(), AllocError>
    ensures { OnOk result ((c : Contents) → (s : State Slot) → All (IsKnownGiven c) sources.now → IsAt c run.old s → IsAt c run.new (machine.move Slot same_slot s (moves_from c.terms 0 params.now sources.now))) }
{
    let places = read_moves(run, params, sources)?;
    set_all(run, params, places.as_slice())
}

/// Enters a block and runs it to its end.
fn arrive(run: &mut Run, to: u32, rows: &[Row]) -> Result<(), AllocError>
    requires { IsRunOver (λ c. All (IsKnownRow c) rows.now) run.old }
    ensures { OnOk result ((c : Contents) → (s : State Slot) → All (IsKnownRow c) rows.now → IsAt c run.old s → IsAt c run.new (machine.arrive Slot same_slot s to (map (row_of c) rows.now))) }
{
    run.block = to;
    note(run, TraceItem::Block(to))?;
    straight(run, rows)
}

/// Takes an edge to a block, given the phis or arguments there.
fn follow(run: &mut Run, edge: &Edge, params: &[Slot], target: &Block) -> Result<(), AllocError>
    requires { IsRunOver (λ c. IsKnownEdge c edge.now × IsKnownBlock c target.now) run.old }
    ensures { OnOk result ((c : Contents) → (s : State Slot) → IsKnownEdge c edge.now → IsKnownBlock c target.now → IsAt c run.old s
        → IsAt c run.new (machine.arrive Slot same_slot (machine.move Slot same_slot s (moves_from c.terms 0 params.now edge.now.sources)) edge.now.to (map (row_of c) target.now.rows))) }
{
    move_all(run, params, edge.sources.as_slice())?;
    arrive(run, edge.to, target.rows.as_slice())
}

/// The phis or arguments of the block at a place.
fn params_of(code: &Code, at: u32) -> &[Slot]
    ensures { result.now ≡ params_at code.now.params at }
{
    match code.params.as_slice().get(at as usize) {
        Some(params) => params.as_slice(),
        None => &[],
    }
}

/// Takes the edge that a choice names, and answers whether there is one that leads to a block.
fn jump(run: &mut Run, code: &Code, choice: u32) -> Result<bool, AllocError>
    requires { IsRunOver (λ c. All (IsKnownBlock c) code.now.blocks) run.old }
    ensures { IfOk result (λ went. (c : Contents) → (s : State Slot) → All (IsKnownBlock c) code.now.blocks → IsAt c run.old s → IsJumped c run.new went s (machine.jump Slot same_slot (code_of c code.now.params code.now.blocks) s choice)) }
{
    let blocks = code.blocks.as_slice();
    let Some(block) = blocks.get(run.block as usize) else {
        return Ok(false)
    };
    let Some(edge) = block.edges.as_slice().get(choice as usize) else {
        return Ok(false)
    };
    let Some(target) = blocks.get(edge.to as usize) else {
        return Ok(false)
    };
    follow(run, edge, params_of(code, edge.to), target)?;
    Ok(true)
}

/// Runs on, with a choice for each jump, until the choices end or one names no edge.
fn run_on(run: &mut Run, code: &Code, choices: &[u32]) -> Result<(), AllocError>
    requires { IsRunOver (λ c. All (IsKnownBlock c) code.now.blocks) run.old }
    ensures { OnOk result ((c : Contents) → (s : State Slot) → All (IsKnownBlock c) code.now.blocks → IsAt c run.old s → IsAt c run.new (machine.run Slot same_slot (code_of c code.now.params code.now.blocks) choices.now s)) }
{
    for choice in choices {
        if !jump(run, code, *choice)? {
            return Ok(());
        }
    }
    Ok(())
}

/// Sets the parameters of a run that has none so far.
fn set_inputs(run: &mut Run, holder: u32, inputs: u32) -> Result<(), AllocError>
    ensures { OnOk result ((c : Contents) → IsAt c run.old (machine.begin Slot same_slot (start_of holder 0)) → IsAt c run.new (machine.begin Slot same_slot (start_of holder inputs))) }
{
    for place in 0..inputs {
        let term = intern(run, TermNode::Param(place))?;
        set(run, Slot::Input(holder, place), term)?;
    }
    Ok(())
}

/// A run before its first block, with its parameters set, whose table has the terms of constants.
fn begin(alloc: Global, terms: TermTable, holder: u32, inputs: u32) -> Result<Run, AllocError>
    ensures { IfOk result (λ run. (trees : List TypeTree) → AreTyped (length trees) terms → IsAt (over trees terms) run (machine.begin Slot same_slot (start_of holder inputs))) }
{
    let mut run = Run {
        alloc,
        table: terms,
        env: IndexMap::new(alloc),
        block: 0,
        count: 0,
        items: Vec::new(alloc),
    };
    set_inputs(&mut run, holder, inputs).and(Ok(run))
}

/// A run that is at the end of the first block.
fn first(
    alloc: Global,
    terms: TermTable,
    holder: u32,
    inputs: u32,
    code: &Code,
) -> Result<Run, AllocError>
    requires { (trees : List TypeTree) × AreTyped (length trees) terms × All (IsKnownBlock (over trees terms)) code.now.blocks }
    ensures { IfOk result (λ run. (trees : List TypeTree) → AreTyped (length trees) terms → All (IsKnownBlock (over trees terms)) code.now.blocks → IsAt (over trees terms) run (machine.first Slot same_slot (start_of holder inputs) (code_of (over trees terms) code.now.params code.now.blocks))) }
{
    let mut run = begin(alloc, terms, holder, inputs)?;
    match code.blocks.as_slice().first() {
        Some(block) => arrive(&mut run, 0, block.rows.as_slice()).and(Ok(run)),
        None => Ok(run),
    }
}

/// The trace of a body, for a list of choices.
pub fn trace_body(alloc: Global, body: Body, choices: &[u32]) -> Result<Trace, AllocError>
    requires known { All (IsKnownBlock (contents_of body.types body.terms)) body.code.blocks }
    requires typed { AreTyped (length (type_trees body.types)) body.terms }
    ensures exact { IfOk result (λ t. items_of t ≡ machine.trace Slot same_slot (start_of body.holder body.inputs) (code_of (contents_of body.types body.terms) body.code.params body.code.blocks) choices.now) }
    ensures tables { IfOk result HasTables }
{
    let Body {
        types,
        terms,
        holder,
        inputs,
        code,
    } = body;
    let mut run = first(alloc, terms, holder, inputs, &code)?;
    run_on(&mut run, &code, choices)?;
    let Run { table, items, .. } = run;

    // These tell the proof what is true of every table.
    let _ = types.len();
    let _ = table.len();
    Ok(Trace {
        types,
        terms: table,
        items,
    })
}
