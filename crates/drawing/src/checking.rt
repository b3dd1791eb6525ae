// The tests of a drawing, in their order.
ghost use Rattle.std.specs.Prelude.{◌≡◌, List, map, length, MatchOption, MatchResult};
ghost use Rattle.std.specs.List.{slice_get};
ghost use Rattle.blocks.specs.Library.{listed};
ghost use Rattle.values.specs.Values.{type_of};
ghost use Rattle.drawing.specs.Accept.{Accepts, Rejects};
ghost use Rattle.drawing.specs.Faults.{Refuses};
ghost use Rattle.drawing.specs.Sound.{gives, Joined};
ghost use Rattle.drawing.specs.Suits.{Fits, AllFit};
ghost use Rattle.drawing.specs.Tests.{Misfit, BlockFault, SourceFault, Counted, JoinedBefore, InputFault, Planned};

use crate::drawing::{Drawing, Plan, Rejected};
use crate::fault::{CheckError, CheckFault};
use crate::order::Signed;
use blocks::{BlockLibrary, Signature, Types};
use draft::{Block, Draft, Source};
use std::alloc::Global;
use values::{Value, ValueType};

// The first parameter whose type is not the one that is asked.
fn misfit(params: &[Value], types: &Types) -> Option<usize>
    requires { length params.now ≡ length (listed types.now) }
    ensures { MatchOption result (map type_of params.now ≡ listed types.now) (Misfit params.now (listed types.now)) }
{
    params
        .iter()
        .enumerate()
        .position(|(p, v)| !types.has(p, v.value_type()))
}

// The tests of one block by itself.
fn check_block<L: BlockLibrary>(
    library: &L,
    b: usize,
    block: &Block,
) -> Result<Signature, CheckFault>
    ensures { MatchResult result
        (Fits (L.meaning library.now) block.now)
        (BlockFault (L.meaning library.now) b block.now) }
{
    let kind = block.kind();
    let params = block.params();
    let sources = block.sources();
    let Some(s) = library.signature(kind) else {
        return Err(CheckFault::UnknownKind(b));
    };
    if sources.len() != s.inputs.len() {
        return Err(CheckFault::InputCount(b));
    }
    if params.len() != s.params.len() {
        return Err(CheckFault::ParameterCount(b));
    }
    if let Some(p) = misfit(params, &s.params) {
        return Err(CheckFault::ParameterType(b, p));
    }
    if !library.lawful(kind, params) {
        return Err(CheckFault::Unlawful(b));
    }
    Ok(s)
}

// The first round: each block by itself. Gives the signatures.
fn sign_all<L: BlockLibrary>(
    heap: Global,
    library: &L,
    blocks: &[Block],
) -> Result<Vec<Signature>, CheckError>
    ensures { MatchResult result
        (λ v. AllFit (L.meaning library.now) blocks.now v.items)
        (λ e. (cs : List ValueType) → Refuses (L.meaning library.now) cs blocks.now e) }
{
    let mut signatures = Vec::new(heap);
    for (b, block) in blocks.iter().enumerate() {
        signatures.push(check_block(library, b, block)?)?;
    }
    Ok(signatures)
}

// The type that a source gives, where it is there. Columns and signatures are two parameters here and below: the draft has
// the ones, and the check has just made the others.
fn source_type(columns: &[ValueType], signatures: &[Signature], source: Source) -> Option<ValueType>
    ensures { result ≡ gives columns.now signatures.now source }
{
    match source {
        Source::Column(c) => columns.get(usize::from(c)).copied(),
        Source::Block(b) => signatures.get(usize::from(b)).map(|s| s.output),
    }
}

// The inputs of one block.
fn check_sources(
    columns: &[ValueType],
    signatures: &[Signature],
    b: usize,
    sources: &[Source],
    inputs: Types,
) -> Result<(), CheckFault>
    requires { length sources.now ≡ length (listed inputs) }
    ensures { MatchResult result
        (λ _. Joined columns.now signatures.now sources.now (listed inputs))
        (SourceFault columns.now signatures.now b sources.now (listed inputs)) }
{
    for (i, source) in sources.iter().enumerate() {
        let Some(t) = source_type(columns, signatures, *source) else {
            return Err(CheckFault::SourceAbsent(b, i));
        };
        if !inputs.has(i, t) {
            return Err(CheckFault::SourceType(b, i));
        }
    }
    Ok(())
}

// The second round: the sources of all inputs.
fn check_inputs(columns: &[ValueType], signed: &Signed) -> Result<(), CheckFault>
    requires { Counted signed.now.blocks.now signed.now.signatures.now }
    ensures { MatchResult result
        (λ _. JoinedBefore columns.now signed.now.blocks.now signed.now.signatures.now (length signed.now.blocks.now))
        (InputFault columns.now signed.now.blocks.now signed.now.signatures.now) }
{
    for (b, (block, s)) in signed.blocks.iter().zip(signed.signatures).enumerate() {
        check_sources(columns, signed.signatures, b, block.sources(), s.inputs)?;
    }
    Ok(())
}

// The three rounds: the signatures of the blocks and the order in which they are worked, or the first fault.
fn judge<L: BlockLibrary>(
    heap: Global,
    library: &L,
    columns: &[ValueType],
    blocks: &[Block],
) -> Result<Plan, CheckError>
    ensures { MatchResult result
        (λ p. Planned (L.meaning library.now) columns.now blocks.now
        p.signatures.items p.order.items)
        (Refuses (L.meaning library.now) columns.now blocks.now) }
{
    let signatures = sign_all(heap, library, blocks)?;
    let signed = Signed {
        blocks,
        signatures: &signatures,
    };
    check_inputs(columns, &signed)?;
    let order = signed.arrange(heap)?;
    Ok(Plan { signatures, order })
}

// Checks a draft: it is accepted exactly when it suits the library, else it comes back with the first fault.
pub fn check<L: BlockLibrary>(heap: Global, library: &L, draft: Draft) -> Result<Drawing, Rejected>
    ensures { MatchResult result
        (Accepts (L.meaning library.now) draft)
        (Rejects (L.meaning library.now) draft) }
{
    // no `map_err`: the draft goes into both answers
    match judge(heap, library, draft.columns(), draft.blocks()) {
        Ok(plan) => Ok(Drawing {
            draft,
            signatures: plan.signatures,
            order: plan.order,
        }),
        Err(error) => Err(Rejected { draft, error }),
    }
}
