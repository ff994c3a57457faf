//! What the slots of a function are called wherever they are shown.
ghost use Rattle.std.specs.Prelude.{◌≡◌, ◌++◌, ◌<◌, ◌^◌, ◌≤◌, List, [], All, IfOk, IsUtf8, OnOk, length};
ghost use Rattle.gob_tree.specs.Words.{AreNamedByWords};
ghost use Rattle.gob_tree.specs.Labels as spec;

use crate::memory::Memory;
use crate::seq::Seq;
use crate::text::Text;
use crate::unit::Slot;
use std::alloc::Global;

/// The label of each slot of a function: the name of the first slot that has it, and `x#k` for the
/// k-th slot of a name `x` from the second on. Slot 0 and slots without a name have an empty label.
/// `Memory` is want of memory.
pub fn slot_labels(alloc: Global, slots: &[Slot]) -> Result<Seq<Text>, Memory>
    ensures { IfOk result (λ labels. labels ≡ spec.labels_of slots.now) }
{
    let mut labels = Seq::new(alloc);
    if !slots.is_empty() {
        labels.push(Text::of(alloc, b"")?)?;
        push_labels(alloc, &mut labels, &slots[1..])?;
    }
    Ok(labels)
}

/// Where the slots are named by words, their labels are text.
pub fn labels_are_text()
    ensures { (slots : List Slot) → AreNamedByWords slots → All IsUtf8 (spec.labels_of slots) }
{}

fn push_labels(alloc: Global, labels: &mut Seq<Text>, named: &[Slot]) -> Result<(), Memory>
    ensures { OnOk result (labels.new ≡ labels.old ++ spec.labels_after [] named.now) }
{
    for (i, slot) in named.iter().enumerate() {
        let before = count_of_name(&named[..i], &slot.name);
        labels.push(label(alloc, &slot.name, before)?)?;
    }
    Ok(())
}

fn count_of_name(slots: &[Slot], name: &Text) -> usize
    ensures value { result ≡ spec.count_of_name slots.now name.now }
    ensures bounded { result ≤ length slots.now }
{
    slots
        .iter()
        .filter(|slot| slot.name.as_bytes() == name.as_bytes())
        .count()
}

fn label(alloc: Global, name: &Text, before: usize) -> Result<Text, Memory>
    requires { before < 2 ^ 63 }
    ensures { IfOk result (λ text. text ≡ spec.label_of name.now before) }
{
    if name.is_empty() || before == 0 {
        return name.copy(alloc);
    }
    let mut digits = itoa::Buffer::new();
    let mut bytes = Vec::from_slice(alloc, name.as_bytes())?;
    bytes.extend_from_slice(b"#")?;
    bytes.extend_from_slice(digits.format(before + 1).as_bytes())?;
    Text::of(alloc, bytes.as_slice())
}
