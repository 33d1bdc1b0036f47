// Reads COMMON (X3.9 section 8.3).
ghost use Rattle.std.specs.Prelude.{◌≡◌, Some, map, IfOk, OnOk};
ghost use Rattle.forms77.specs.Reading.{read};
ghost use Rattle.forms77.specs.Views.{Gives};
ghost use Rattle.specify77.specs.Parts.{next_member};
ghost use Rattle.specify77.specs.MemberViews.{member_of, gathered_of};
ghost use Rattle.tree77.specs.SpecificationForms as form;
ghost use Rattle.tree77.specs.StatementPlain.{block_of, declarator_of, declared_of};

use crate::declarator::OneDeclarator;
use forms77::{Feed, Rule, Stop, many};
use sqlite_items::Items;
use std::alloc::{AllocError, Global};
use std::mem;
use text_base::Name;
use tree77::{Block77, Declarator77, Declared77};

/// A member of COMMON, and the block that begins with it, if one does: its name, none for blank COMMON.
#[derive(Drop)]
struct Member {
    block: Option<Option<Name>>,
    declared: Declarator77,
}

/// `/[block]/`.
fn block(feed: &mut Feed<'_, '_>) -> Result<Option<Name>, Stop>
    ensures { Gives (λ x. x) result feed.new (read form.block feed.old) }
{
    feed.mark(b'/')?;
    let mut block = None;
    if feed.is_at("A") {
        block = Some(feed.name()?);
    }
    feed.mark(b'/')?;
    Ok(block)
}

/// A member with which a block begins.
fn first_member(alloc: Global, feed: &mut Feed<'_, '_>) -> Result<Member, Stop>
    ensures { Gives member_of result feed.new (read form.first_member feed.old) }
{
    let block = block(feed)?;
    let declared = OneDeclarator.read(alloc, feed)?;
    Ok(Member {
        block: Some(block),
        declared,
    })
}

/// A member.
fn one_member(alloc: Global, feed: &mut Feed<'_, '_>) -> Result<Member, Stop>
    ensures { Gives member_of result feed.new (read form.member feed.old) }
{
    if feed.is_at("/") {
        return first_member(alloc, feed);
    }
    let declared = OneDeclarator.read(alloc, feed)?;
    Ok(Member {
        block: None,
        declared,
    })
}

/// A member behind a comma, or one with which a block begins.
struct NextMember;

impl Rule for NextMember {
    type Made = Member;

    ghost Plain = { form.Member };

    ghost plain = { member_of };

    ghost reader = { λ _. read next_member };

    fn read(&self, alloc: Global, feed: &mut Feed<'_, '_>) -> Result<Member, Stop> {
        if feed.is_at(",") {
            feed.mark(b',')?;
            return one_member(alloc, feed);
        }
        first_member(alloc, feed)
    }
}

/// The members of no block yet, and the blocks behind them, both from the last to the first.
#[derive(Drop)]
struct Gathered {
    members: Vec<Declarator77>,
    blocks: Vec<Block77>,
}

/// Adds a member before the others, with which a block begins.
#[tactic(auto, using(crate::proofs::Members::turned))]
fn add_first(
    alloc: Global,
    gathered: &mut Gathered,
    name: Option<Name>,
    declared: Declarator77,
) -> Result<(), AllocError>
    ensures { OnOk result (gathered_of gathered.new ≡ form.add_member (Some name) (declarator_of declared) (gathered_of gathered.old)) }
{
    gathered.members.push(declared)?;
    let mut members = mem::replace(&mut gathered.members, Vec::new(alloc));
    members.reverse();
    let members = Items::from_vec(members);
    gathered.blocks.push(Block77 { name, members })?;
    Ok(())
}

/// Adds a member before the others.
#[tactic(auto, using(crate::proofs::Members::turned))]
fn add(alloc: Global, gathered: &mut Gathered, member: Member) -> Result<(), AllocError>
    ensures { OnOk result (gathered_of gathered.new ≡ form.add_member (member_of member).block (member_of member).declared (gathered_of gathered.old)) }
{
    let Member { block, declared } = member;
    match block {
        None => {
            gathered.members.push(declared)?;
            Ok(())
        }
        Some(name) => add_first(alloc, gathered, name, declared),
    }
}

/// The members before the first block, and the blocks.
#[tactic(auto, using(crate::proofs::Members::members_onto))]
fn gather(alloc: Global, mut members: Items<Member>) -> Result<Gathered, AllocError>
    ensures { IfOk result (λ gathered. gathered_of gathered ≡ form.in_blocks (map member_of members)) }
{
    let mut gathered = Gathered {
        members: Vec::new(alloc),
        blocks: Vec::new(alloc),
    };
    while let Some(member) = members.pop() {
        add(alloc, &mut gathered, member)?;
    }
    Ok(gathered)
}

/// The block that a first member is of: blank COMMON, where no other block begins with it.
fn or_blank(block: Option<Option<Name>>) -> Option<Name>
    ensures { result ≡ form.or_blank block }
{
    match block {
        None => None,
        Some(name) => name,
    }
}

/// The blocks of members.
fn blocks_of(
    alloc: Global,
    first: Member,
    members: Items<Member>,
) -> Result<Items<Block77>, AllocError>
    ensures { IfOk result (λ blocks. map block_of blocks ≡ form.blocks_of (member_of first) (map member_of members)) }
{
    let mut gathered = gather(alloc, members)?;
    let Member { block, declared } = first;
    add_first(alloc, &mut gathered, or_blank(block), declared)?;
    let Gathered { mut blocks, .. } = gathered;
    blocks.reverse();
    Ok(Items::from_vec(blocks))
}

/// `COMMON [/[block]/] list [[,] /[block]/ list] ..` (X3.9 section 8.3).
///
/// In: what is left of the statement behind its keyword.
///
/// Out: the tree; `feed` then stands behind it and has the lowest refused part so far. `NotSpelled` where what is left doesn't
/// begin with this form; `Memory` where memory is wanted.
pub fn common(alloc: Global, feed: &mut Feed<'_, '_>) -> Result<Declared77, Stop>
    ensures { Gives declared_of result feed.new (read form.common feed.old) }
{
    let first = one_member(alloc, feed)?;
    let members = many(alloc, feed, ",/", &NextMember)?;
    Ok(Declared77::Common(blocks_of(alloc, first, members)?))
}
