// The command that links the groups of two catalogues.
ghost use Rattle.std.specs.Prelude.{◌≡◌, ◌<◌, ◌^◌, ◌++◌, length, IfOk, IfErr, OnOk};
ghost use Rattle.group_file.specs.Catalogues.{IsGood};
ghost use Rattle.merger_links.specs.Links.{AreLinks};
ghost use Rattle.store_io.specs.Told.{IsQuiet, KeepsFiles, Tells};
ghost use Rattle.gadget.specs.Reads.{seen_by};
ghost use Rattle.gadget.specs.LinkTexts.{links_text};
ghost use Rattle.gadget.specs.Linking.{LinksBy, LinksRefusal, NamesBoth};
ghost use Rattle.gadget.specs.Texts.{linked_text};

use crate::catalogues::load_catalogue;
use crate::link_texts::{followed, links_text};
use crate::named_file::write_file;
use crate::outcome::Outcome;
use crate::status::Status;
use crate::texts::push_counted;
use fixed_point::Memory;
use group_file::Catalogue;
use merger_links::{LinkList, links};
use std::alloc::Global;
use store_io::{Store, Text};

/// Two catalogues.
#[derive(Drop)]
struct Both {
    first: Catalogue,
    second: Catalogue,
}

// Reads two catalogues, one after the other.
fn load_both<S: Store>(
    alloc: Global,
    store: &mut S,
    first: &Text,
    second: &Text,
) -> Result<Both, Status>
    ensures keeps { KeepsFiles S.Store store.old store.new }
    ensures ok { IfOk result (λ b. Tells S.Store store.old
        → NamesBoth (S.file store.old) first.now second.now b.first b.second) }
    ensures good { IfOk result (λ b. IsGood b.first × IsGood b.second) }
    ensures few { IfOk result (λ b. (length b.first < 2 ^ 32) × (length b.second < 2 ^ 32)) }
    ensures quiet { OnOk result (IsQuiet S.Store store.old store.new) }
    ensures err { IfErr result (LinksRefusal (seen_by S.Store store.old store.new) first.now second.now) }
{
    let first = match load_catalogue(alloc, store, first) {
        Ok(first) => first,
        Err(status) => return Err(status),
    };
    match load_catalogue(alloc, store, second) {
        Ok(second) => Ok(Both { first, second }),
        Err(status) => Err(status),
    }
}

// The links of two catalogues, and their text.
fn find_links(alloc: Global, both: &Both) -> Result<(LinkList, Vec<u8>), Memory>
    requires good { IsGood both.now.first × IsGood both.now.second }
    requires few { (length both.now.first < 2 ^ 32) × (length both.now.second < 2 ^ 32) }
    ensures exact { IfOk result (λ r. AreLinks both.now.first both.now.second r.0) }
    ensures text { IfOk result (λ r. r.1.items ≡ links_text r.0) }
{
    let list = links(alloc, &both.first, &both.second)?;
    let text = links_text(alloc, &list)?;
    Ok((list, text))
}

/// Writes the links of the groups of the first catalogue to those of the second, a line for each.
pub fn link_groups<S: Store>(
    alloc: Global,
    store: &mut S,
    first: &Text,
    second: &Text,
    name: &Text,
) -> Outcome
    ensures tells { S.tells store.new ≡ S.tells store.old }
    ensures does { LinksBy S.Store store.old store.new first.now second.now name.now result }
{
    let both = match load_both(alloc, store, first, second) {
        Ok(both) => both,
        Err(status) => return Outcome::Refused(status),
    };
    let (list, text) = match find_links(alloc, &both) {
        Ok(found) => found,
        Err(Memory) => return Outcome::Refused(Status::Memory),
    };
    let name = match Text::from_bytes(alloc, name.bytes()) {
        Ok(name) => name,
        Err(Memory) => return Outcome::Refused(Status::Memory),
    };
    match write_file(store, name, &text) {
        Ok(()) => Outcome::Linked {
            count: followed(&list),
        },
        Err(status) => Outcome::Refused(status),
    }
}

/// The line of links that were written: how many groups have a descendant.
pub fn linked_line(alloc: Global, count: u64) -> Result<Vec<u8>, Memory>
    ensures { IfOk result (λ line. line.items ≡ linked_text count) }
{
    let mut line = Vec::new(alloc);
    push_counted(&mut line, b"links", u128::from(count))?;
    line.push(b'\n')?;
    Ok(line)
}
