//! LLVM module to dialect module.

ghost use Rattle.std.specs.Prelude.{◌≡◌, ◌<◌, ◌≤◌, All, List, [], ◌∷◌, ℕ, Err, IfErr, IfOk, OnOk, Some, length, map};
ghost use Rattle.llvm_core.specs.Data.{data_of};
ghost use Rattle.llvm_core.specs.Form.{IsForm, IsFormFunction, IsHeldFunction};
ghost use Rattle.held_types.specs.Held.{AreHeld, AreHeldStructs};
ghost use Rattle.renamed_source.specs.Names.{struct_name};
ghost use Rattle.meaning.specs.Renamed.{renamed_module};
ghost use Rattle.dialect_types.specs.Trees.{structs_of, IsStored};
ghost use Rattle.meaning.specs.Code.{SameCode, IsDistinctNames};
ghost use Rattle.meaning.specs.Pairs.{Matched};
ghost use Rattle.meaning.specs.Llvm as llvm;
ghost use Rattle.meaning.specs.Dialect as dialect;
ghost use Rattle.dialect_types.specs.Legalised.{Gave, GoesOn};
ghost use Rattle.dialect_core.specs.declared.numbers.OpRef.{OpRef};
ghost use Rattle.dialect_core.specs.declared.ops.OpKind.TheVariants as kinds;
ghost use Rattle.dialect_core.specs.ContextData.{AreRegions, IsSymbol, holder_at, kind_at, region_at};
ghost use Rattle.dialect_core.specs.Data.{IsTyped};
ghost use Rattle.from_llvm_ir.specs.Match.{match_of};
ghost use Rattle.from_llvm_ir.specs.Imported.{IsBuilding, IsImported, imported_data, seen_by};
ghost use Rattle.from_llvm_ir.specs.Importing.{IsImportedTo};
ghost use Rattle.from_llvm_ir.specs.Keeping.{Keeps, Leaves, AreOthersKept};
ghost use Rattle.from_llvm_ir.specs.Naming.{ForLater, HasMet, HasMetFirst};
ghost use Rattle.from_llvm_ir.specs.Refusals.{IsCause, IsCauseAfter, IsEarly, IsRefusalOfFunctions};
ghost use Rattle.from_llvm_ir.specs.Types.{IsReadyFor};
ghost use Rattle.from_llvm_ir.specs.Structs.{AddsOnly, AreNamed, IsStructMatch, identifiers};
ghost use Rattle.from_llvm_ir.specs.Building.{module_named};
ghost use Rattle.renamed_source.specs.Source.{pairs_of};

use crate::building::add_bare_block;
use crate::functions::import_function;
use crate::matching::FunctionBlocks;
use crate::structs::{make_structs, name_structs};
use dialect_core::context::Context;
use dialect_core::few::has_few;
use dialect_core::numbers::{BlockRef, ModuleOp};
use dialect_core::steps::Steps;
use dialect_types::identifier::Identifier;
use dialect_types::legaliser::Legaliser;
use from_consts::conversion_err::ConversionErr;
use held_types::held_structs::held_structs;
use llvm_core::module::LLVMModule;
use llvm_core::numbers::{LLVMFunction, LLVMStruct};
use renamed_source::source::Source;
use std::alloc::{AllocError, Global};
use std::marker::Brand;
use std::sync::ledger::{Blank, Ledger};
use support::items::Items;

/// A dialect module, the match of blocks, and the structs with a name that values of the source hold, in its order, with their
/// names in the dialect.
#[derive(Drop)]
pub struct Imported {
    pub module: ModuleOp,
    pub blocks: Items<FunctionBlocks>,
    pub structs: Vec<(String, Identifier)>,
}

/// The identifiers of the functions of a module, in order.
fn function_names(
    alloc: Global,
    names: &mut Legaliser,
    source: &LLVMModule,
) -> Result<Vec<Identifier>, AllocError>
    ensures given { IfOk result (λ ns. Matched (λ g n. Gave names.new g.name n) (data_of source.now).functions ns.items) }
    ensures met { OnOk result (HasMet names.old names.new (map (λ g. g.name) (data_of source.now).functions)) }
    ensures grows { GoesOn names.old names.new }
{
    let mut all = Vec::new(alloc);
    for f in 0..source.functions() {
        all.push(names.legalise(source.function_name(LLVMFunction(f)))?)?;
    }
    Ok(all)
}

/// All functions of a source of the form, under the identifiers of their names, into a module without functions, and their
/// match of blocks.
fn import_bodies<L: Ledger>(
    alloc: Global,
    ctx: &mut Context,
    names: &mut Legaliser,
    source: &Source<'_>,
    given: &[Identifier],
    body: BlockRef,
    steps: &mut Steps<L>,
) -> Result<Items<FunctionBlocks>, ConversionErr>
    requires form { All IsFormFunction (data_of source.now).functions }
    requires held { All IsHeldFunction (data_of source.now).functions }
    requires given { Matched (λ g n. Gave names.old g.name n) (data_of source.now).functions given.now }
    requires ready { All (λ g. IsReadyFor g (structs_of ctx.old.types)) (data_of source.now).functions }
    requires building { (m : ℕ) × (name : List ℕ) × IsBuilding ctx.old m body (module_named name) }
    ensures err { IfErr result (λ e. IsRefusalOfFunctions (data_of source.now) e) }
    ensures ok { IfOk result (λ bs. (m : ℕ) → (name : List ℕ) → IsBuilding ctx.old m body (module_named name) → ForLater names.new (λ given. IsImportedTo (data_of source.now) given (length source.now.functions) ctx.new m body name bs)) }
    ensures grows { GoesOn names.old names.new }
    ensures kept { (m : ℕ) → (name : List ℕ) → IsBuilding ctx.old m body (module_named name) → (n b : ℕ) → n ≤ m → b ≤ body.0 → Keeps n b ctx.old ctx.new }
{
    let mut blocks = Items::new(alloc);
    for f in 0..source.functions() {
        let function = LLVMFunction(f);
        let name = &given[f as usize];
        blocks.push(import_function(alloc, ctx, names, source, function, name, body, steps)?)?;
    }
    Ok(blocks)
}

/// The structs that values of a module of the form hold, under the identifiers of their names, and all its functions, into a
/// module without functions; the match of blocks, and that of structs.
fn import_parts<L: Ledger>(
    alloc: Global,
    ctx: &mut Context,
    names: &mut Legaliser,
    module: &LLVMModule,
    held: &[LLVMStruct],
    body: BlockRef,
    steps: &mut Steps<L>,
) -> Result<(Items<FunctionBlocks>, Vec<(String, Identifier)>), ConversionErr>
    requires form { IsForm (data_of «module».now) }
    requires taken { AreHeld (data_of «module».now) }
    requires held { AreHeldStructs (data_of «module».now) held.now }
    requires building { (m : ℕ) × (name : List ℕ) × IsBuilding ctx.old m body (module_named name) }
    ensures err { IfErr result (λ e. IsCauseAfter names.old (structs_of ctx.old.types) (data_of «module».now) e) }
    ensures ok { IfOk result (λ r. (m : ℕ) → (name : List ℕ) → IsBuilding ctx.old m body (module_named name) → ForLater names.new (λ given. IsImportedTo (renamed_module (struct_name (pairs_of r.1.items)) (data_of «module».now)) given (length «module».now.functions) ctx.new m body name r.0)) }
    ensures structs { IfOk result (λ r. IsStructMatch (data_of «module».now) (pairs_of r.1.items) (structs_of ctx.new.types)) }
    ensures named { IfOk result (λ r. AreNamed (data_of «module».now) names.new (pairs_of r.1.items)) }
    ensures only { IfOk result (λ r. AddsOnly (structs_of ctx.old.types) (structs_of ctx.new.types) (identifiers (pairs_of r.1.items))) }
    ensures met { OnOk result (HasMetFirst names.old names.new (map (λ g. g.name) (data_of «module».now).functions)) }
    ensures grows { GoesOn names.old names.new }
    ensures kept { (m : ℕ) → (name : List ℕ) → IsBuilding ctx.old m body (module_named name) → (n b : ℕ) → n ≤ m → b ≤ body.0 → Leaves n b ctx.old ctx.new }
{
    let given = function_names(alloc, names, module)?;
    let structs = name_structs(alloc, names, module, held)?;
    names.keeps_legal();
    let blocks = {
        let source = Source::new(alloc, module, structs.as_slice())?;
        make_structs(alloc, ctx, module, structs.as_slice(), &source, held)?;
        import_bodies(alloc, ctx, names, &source, given.as_slice(), body, steps)?
    };
    know_stored(ctx);
    Ok((blocks, structs))
}

/// What holds of the types of a context: its store keeps that. This only reads, and is for the proof of its caller.
fn know_stored(ctx: &Context)
    ensures { IsStored ctx.now.types }
{
    let _ = ctx.types().len();
}

/// A new module without functions, and the block for its functions.
fn start_module(
    ctx: &mut Context,
    names: &mut Legaliser,
    source: &LLVMModule,
) -> Result<(ModuleOp, BlockRef), AllocError>
    ensures building { IfOk result (λ s. (name : List ℕ) × Gave names.new source.now.name name × IsBuilding ctx.new s.0.0.0 s.1 (module_named name)) }
    ensures types { OnOk result (ctx.new.types ≡ ctx.old.types) }
    ensures met { OnOk result (HasMet names.old names.new (source.now.name ∷ [])) }
    ensures grows { GoesOn names.old names.new }
    ensures number { IfOk result (λ s. s.0.0.0 ≡ length ctx.old.ops) }
    ensures block { IfOk result (λ s. s.1.0 ≡ length ctx.old.blocks) }
    ensures kept { (n b : ℕ) → n ≤ length ctx.old.ops → Keeps n b ctx.old ctx.new }
{
    let name = names.legalise(source.name())?;
    let module = ctx.create_module(name)?;
    let body = add_bare_block(ctx, module.0, None, &[])?;
    Ok((module, body))
}

/// Each block stands in the region of the operation that holds it and in no other, and a function has a type and a
/// linkage: a context keeps that. This only reads, and is for the proof of its caller.
fn know_kept(ctx: &Context, root: ModuleOp)
    requires { root.0.0 < length ctx.now.ops }
    ensures regions { AreRegions (region_at ctx.now.ops) (holder_at ctx.now.blocks) }
    ensures symbols { (o : OpRef) → kind_at ctx.now.ops o ≡ Some kinds.Func → IsSymbol ctx.now.ops o }
{
    ctx.keeps_regions();
    let _blocks = ctx.region(root.0);
}

/// The import of a module of which the structs are known that values hold, with its steps in a ledger.
fn import_counted<L: Ledger>(
    alloc: Global,
    ctx: &mut Context,
    names: &mut Legaliser,
    source: &LLVMModule,
    held: &[LLVMStruct],
    blank: Blank,
) -> Result<Imported, ConversionErr>
    requires blank_name { blank.name ≡ L.name }
    requires parts { blank.parts ≡ L.parts }
    requires some { 0 < L.parts }
    requires names { names.old ≡ [] }
    requires form { IsForm (data_of source.now) }
    requires taken { AreHeld (data_of source.now) }
    requires held { AreHeldStructs (data_of source.now) held.now }
    ensures imported { IfOk result (λ i. IsImported (seen_by i (data_of source.now)) ctx.new i) }
    ensures number { IfOk result (λ i. i.«module».0.0 ≡ length ctx.old.ops) }
    ensures structs { IfOk result (λ i. IsStructMatch (data_of source.now) (pairs_of i.structs.items) (structs_of ctx.new.types)) }
    ensures only { IfOk result (λ i. AddsOnly (structs_of ctx.old.types) (structs_of ctx.new.types) (identifiers (pairs_of i.structs.items))) }
    ensures cause { IfErr result (λ e. IsCause (structs_of ctx.old.types) (data_of source.now) e) }
    ensures others { AreOthersKept ctx.old ctx.new }
    ensures typed { IsTyped ctx.old → IsTyped ctx.new }
{
    let mut steps = Steps::<L>::new(blank);
    let (module, body) = start_module(ctx, names, source)?;
    let (blocks, structs) = import_parts(alloc, ctx, names, source, held, body, &mut steps)?;
    know_kept(ctx, module);
    names.keeps_legal();
    // Each list of a dialect module has fewer than 2^31 entries: a longer one is want of memory.
    if !has_few(ctx, body) {
        return Err(ConversionErr::NoMemory);
    }
    Ok(Imported {
        module,
        blocks,
        structs,
    })
}

/// Makes room for what stands for a module: an operation for itself, for each function and for each instruction, and
/// for each constant in each function that uses it, of which few modules have more than these.
fn make_room(ctx: &mut Context, source: &LLVMModule)
    ensures { ctx.new ≡ ctx.old }
{
    let functions = source.functions() as usize;
    let insts = source.inst_count() as usize;
    let consts = insts.min(source.const_count() as usize);
    let held = insts.saturating_add(consts).saturating_add(functions);
    ctx.make_room(
        held.saturating_add(1),
        (source.block_count() as usize).saturating_add(1),
    );
}

/// A new module of a context, whose functions stand for those of a module of the form, in order, and the match of blocks and of
/// structs with a name: those that values of the module hold are in the context under identifiers, made before any function is
/// imported; no other is made. What is said of the functions is said of the source under these names. A context prints and
/// exports all structs that it has with each of its modules.
/// The context may be any. All that it held stays, whatever is answered: its types, its operations and where they stand,
/// its blocks and what they list. Where its numbers of types are there, they stay there, and each of its modules has the
/// data that it had. After a refusal the context may hold more operations, blocks and types.
/// Refuses a module that has values whose type is, or holds, one for which the dialect has none, `Unsupported`, or that uses a
/// constant that is, or is made of, an integer of more than 64 bits, `IntConstTooWide`, or a splat of a scalable vector,
/// `Unsupported(ScalableSplat)`, and leaves the context as it was; a struct whose identifier the context has with another body,
/// `Struct`; and a function that uses the result of an instruction where it is not defined: `UndefinedValue`.
pub fn convert_module(
    alloc: Global,
    ctx: &mut Context,
    module: &LLVMModule,
) -> Result<Imported, ConversionErr>
    requires form { IsForm (data_of «module».now) }
    ensures imported { IfOk result (λ i. IsImported (seen_by i (data_of «module».now)) ctx.new i) }
    ensures same { IsDistinctNames (map (λ g. g.name) (data_of «module».now).functions) → IfOk result (λ i. SameCode (match_of (data_of «module».now) i.blocks (pairs_of i.structs.items)) (llvm.code_of (data_of «module».now)) (dialect.code_of (imported_data ctx.new i))) }
    ensures structs { IfOk result (λ i. IsStructMatch (data_of «module».now) (pairs_of i.structs.items) (structs_of ctx.new.types)) }
    ensures only { IfOk result (λ i. AddsOnly (structs_of ctx.old.types) (structs_of ctx.new.types) (identifiers (pairs_of i.structs.items))) }
    ensures number { IfOk result (λ i. i.«module».0.0 ≡ length ctx.old.ops) }
    ensures held { IfOk result (λ i. AreHeld (data_of «module».now)) }
    ensures cause { IfErr result (λ e. IsCause (structs_of ctx.old.types) (data_of «module».now) e) }
    ensures still { IfErr result (λ e. IsEarly e → ctx.new ≡ ctx.old) }
    ensures others { AreOthersKept ctx.old ctx.new }
    ensures typed { IsTyped ctx.old → IsTyped ctx.new }
{
    let held = held_structs(alloc, module)?;
    make_room(ctx, module);
    let mut names = Legaliser::new(alloc);
    import_counted::<Brand>(
        alloc,
        ctx,
        &mut names,
        module,
        held.as_slice(),
        Blank::new(1),
    )
}
