//! What is declared at a place.

ghost use Rattle.std.specs.Option.{option_copied, option_map};
ghost use Rattle.std.specs.Prelude.{◌≡◌, OnOk, IfOk, [], ◌∷◌, length};
ghost use Rattle.c_check.specs.Names.{file_meaning, function_named, callee, arbitrary_width, is_main, is_arbitrary, is_named, named, meaning, is_declared_here, with_name, with_slot, with_local, with_thread, opened, closed};
ghost use Rattle.c_check.specs.Units.{no_names};

use crate::meaning::{Callee, Declared, Meaning, Signature};
use crate::named::Named;
use crate::visible::Visible;
use gob_tree::{FuncKind, Memory, Seq, Slot, Text, Width};
use std::alloc::Global;
use std::marker::Model;

/// Whether a name is `main`.
pub(crate) fn is_main(name: &Text) -> bool
    ensures { result ≡ is_main name.now }
{
    name.as_bytes() == b"main".as_slice()
}

/// The width of the arbitrary number that a name stands for.
pub(crate) fn arbitrary_width(name: &Text) -> Option<Width>
    ensures { result ≡ arbitrary_width name.now }
{
    let name = name.as_bytes();
    if name == b"__VERIFIER_nondet_int".as_slice() {
        return Some(Width::W32);
    }
    if name == b"__VERIFIER_nondet_long".as_slice() {
        return Some(Width::W64);
    }
    None
}

/// Whether a name stands for an arbitrary number.
pub(crate) fn is_arbitrary(name: &Text) -> bool
    ensures { result ≡ is_arbitrary name.now }
{
    arbitrary_width(name).is_some()
}

/// What a call has to know of a function.
pub(crate) fn callee(signature: &Signature) -> Callee
    ensures { result ≡ callee signature.now }
{
    Callee {
        number: signature.number,
        kind: signature.kind,
        width: signature.width,
        params: signature.params.len(),
    }
}

/// What the items of a unit declare: the functions that the whole unit defines or has prototypes
/// of; and of the items above a place its globals and mutexes, and the names of its functions and
/// prototypes.
#[derive(Drop)]
pub(crate) struct FileScope {
    pub definitions: Named<Signature>,
    pub prototypes: Named<Signature>,
    pub values: Named<Meaning>,
    pub defined: Named<()>,
    pub prototyped: Named<()>,
}

impl Model for FileScope {
    ghost use Rattle.c_check.specs.Names.{FileNames};
    ghost use Rattle.std.specs.Prelude.{map};

    ghost Value = { FileNames };

    ghost view = { λ s. record { definitions = s.definitions; prototypes = s.prototypes; values = s.values; defined = map (λ e. e.0) s.defined; prototyped = map (λ e. e.0) s.prototyped } };
}

impl FileScope {
    /// What a name means outside of the functions.
    pub(crate) fn meaning(&self, name: &Text) -> Option<Meaning>
        ensures { result ≡ file_meaning self.now name.now }
    {
        if let Some(width) = arbitrary_width(name) {
            return Some(Meaning::Arbitrary(width));
        }
        if let Some(value) = self.values.find(name) {
            return Some(*value);
        }
        match self.function(name) {
            Some(function) => Some(Meaning::Function(callee(function))),
            None => None,
        }
    }

    /// The function of a name: its definition, or else its first prototype.
    fn function(&self, name: &Text) -> Option<&Signature>
        ensures { option_copied result ≡ function_named self.now name.now }
    {
        match self.definitions.find(name) {
            Some(function) => Some(function),
            None => self.prototypes.find(name),
        }
    }
}

/// What a function declares, at a place of its body.
#[derive(Drop)]
pub(crate) struct BodyScope {
    kind: FuncKind,
    visible: Visible,
    depth: usize,
    slots: Seq<Slot>,
    threads: Seq<Text>,
}

impl Model for BodyScope {
    ghost use Rattle.c_check.specs.Names.{BodyNames};

    ghost Value = { BodyNames };

    ghost view = { λ s. record { kind = s.kind; visible = s.visible; depth = s.depth; slots = s.slots; threads = s.threads } };
}

/// The number after so many, where it is one of 16 bits. A text of 65,536 bytes has fewer
/// declarations, so there `Memory` doesn't come.
pub(crate) fn next_number(count: usize) -> Result<u16, Memory>
    ensures { IfOk result (λ n. n ≡ count) }
{
    if count > u16::MAX as usize {
        return Err(Memory);
    }
    Ok(count as u16)
}

impl BodyScope {
    /// The scope of a function before its parameters, with the slot of the returned value.
    pub(crate) fn new(alloc: Global, kind: FuncKind, width: Width) -> Result<BodyScope, Memory>
        ensures { IfOk result (λ s. s ≡ no_names kind width) }
    {
        let name = Text::of(alloc, b"")?;
        let mut slots = Seq::new(alloc);
        slots.push(Slot { name, width })?;
        Ok(BodyScope {
            kind,
            visible: Visible::new(alloc),
            depth: 0,
            slots,
            threads: Seq::new(alloc),
        })
    }

    /// The kind of the function.
    pub(crate) fn kind(&self) -> FuncKind
        ensures { result ≡ self.now.kind }
    {
        self.kind
    }

    /// The latest declaration of a name that is seen.
    pub(crate) fn find(&self, name: &Text) -> Option<Meaning>
        ensures { result ≡ option_map (λ d. d.meaning) (named name.now self.now.visible) }
    {
        match self.visible.find(name) {
            Some(declared) => Some(declared.meaning),
            None => None,
        }
    }

    /// Whether a name is declared in the innermost block already.
    pub(crate) fn is_declared_here(&self, name: &Text) -> bool
        ensures { result ≡ is_declared_here self.now name.now }
    {
        match self.visible.find(name) {
            Some(declared) => declared.depth == self.depth,
            None => false,
        }
    }

    /// A name has a meaning from here on.
    pub(crate) fn add_name(
        &mut self,
        alloc: Global,
        name: &Text,
        meaning: Meaning,
    ) -> Result<(), Memory>
        ensures { OnOk result (self.new ≡ with_name name.now meaning self.old) }
    {
        let depth = self.depth;
        self.visible.add(alloc, name, Declared { meaning, depth })
    }

    /// One more slot.
    pub(crate) fn add_slot(
        &mut self,
        alloc: Global,
        name: &Text,
        width: Width,
    ) -> Result<(), Memory>
        ensures { OnOk result (self.new ≡ with_slot name.now width self.old) }
    {
        let name = name.copy(alloc)?;
        self.slots.push(Slot { name, width })
    }

    /// Declares a number, which takes the next slot, and answers its slot.
    pub(crate) fn add_local(
        &mut self,
        alloc: Global,
        name: &Text,
        width: Width,
    ) -> Result<u16, Memory>
        ensures scope { OnOk result (self.new ≡ with_local name.now width self.old) }
        ensures slot { IfOk result (λ x. x ≡ length self.old.slots) }
    {
        let slot = next_number(self.slots.len())?;
        self.add_name(alloc, name, Meaning::Local(slot))?;
        self.add_slot(alloc, name, width)?;
        Ok(slot)
    }

    /// Declares a thread variable, and answers its number.
    pub(crate) fn add_thread(&mut self, alloc: Global, name: &Text) -> Result<u16, Memory>
        ensures scope { OnOk result (self.new ≡ with_thread name.now self.old) }
        ensures number { IfOk result (λ t. t ≡ length self.old.threads) }
    {
        let thread = next_number(self.threads.len())?;
        self.add_name(alloc, name, Meaning::Thread(thread))?;
        let name = name.copy(alloc)?;
        self.threads.push(name)?;
        Ok(thread)
    }

    /// A block begins.
    pub(crate) fn open(&mut self) -> Result<(), Memory>
        ensures { OnOk result (self.new ≡ opened self.old) }
    {
        if self.depth == usize::MAX {
            return Err(Memory);
        }
        self.depth += 1;
        Ok(())
    }

    /// A block ends: what it declared is seen no more.
    pub(crate) fn close(&mut self)
        ensures { self.new ≡ closed self.old }
    {
        self.visible.end_block(self.depth);
        self.depth = self.depth.saturating_sub(1);
    }

    /// The slots and the names of the thread variables.
    pub(crate) fn into_parts(self) -> (Seq<Slot>, Seq<Text>)
        ensures { (result.0 ≡ self.slots) × (result.1 ≡ self.threads) }
    {
        let BodyScope { slots, threads, .. } = self;
        (slots, threads)
    }
}

/// What a name means in a body.
pub(crate) fn meaning(file: &FileScope, body: &BodyScope, name: &Text) -> Option<Meaning>
    ensures { result ≡ meaning file.now body.now name.now }
{
    match body.find(name) {
        Some(meaning) => Some(meaning),
        None => file.meaning(name),
    }
}
