// The file of links, a line for each.
ghost use Rattle.std.specs.Prelude.{◌≡◌, ◌++◌, codes, decimal, IfOk, OnOk};
ghost use Rattle.gadget.specs.LinkTexts.{descendant_text, followed, link_text, links_text};

use fixed_point::Memory;
use merger_links::{Link, LinkList};
use std::alloc::Global;
use text_words::{push_spaced, push_unsigned};

fn push_descendant(line: &mut Vec<u8>, descendant: Option<u64>) -> Result<(), Memory>
    ensures { OnOk result (line.new.items ≡ line.old.items ++ descendant_text descendant) }
{
    match descendant {
        Some(label) => push_spaced(line, label),
        None => Ok(line.extend_from_slice(b" none")?),
    }
}

// The line of a link.
fn push_link(out: &mut Vec<u8>, link: &Link) -> Result<(), Memory>
    ensures { OnOk result (out.new.items ≡ out.old.items ++ link_text link.now) }
{
    push_unsigned(out, u128::from(link.label))?;
    push_descendant(out, link.descendant)?;
    push_spaced(out, link.shared)?;
    push_spaced(out, if link.main { 1 } else { 0 })?;
    out.push(b'\n')?;
    Ok(())
}

/// The bytes of a file of links.
pub fn links_text(alloc: Global, list: &LinkList) -> Result<Vec<u8>, Memory>
    ensures { IfOk result (λ text. text.items ≡ links_text list.now) }
{
    let mut text = Vec::new(alloc);
    for link in &list.links {
        push_link(&mut text, link)?;
    }
    Ok(text)
}

/// How many groups have a descendant.
pub fn followed(list: &LinkList) -> u64
    ensures { result ≡ followed list.now }
{
    list.links.iter().filter(|l| l.descendant.is_some()).count() as u64
}
