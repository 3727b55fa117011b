//! The records of a row, as they are written.

ghost use Rattle.std.specs.Prelude.{map, All};
ghost use Rattle.cx_core.specs.Views.{view_member, view_record};
ghost use Rattle.cx_layout.specs.Calls.{IsMemberComplete, HasFittingBits};
ghost use Rattle.rs_items.specs.Laid.{IsLaidOut};

use crate::laid::{LaidOut, lay_out};
use crate::members::members_left;
use cr_base::{Items, Memory, Name, Spot};
use cx_core::RecordTy;
use cx_layout::Layouts;
use row_words::{Answer, Asked, RowFault};
use rs_items::{Known, NameMap, NameScope, Named, record_item, rust_type};
use rs_items_fields::field_name;
use rs_print::bytes_of;
use rs_tree::{Module, RPath, RTy, module_lines};
use std::alloc::Global;

// Where nothing stands.
const NO_SPOT: Spot = Spot {
    byte: 0,
    bit: 0,
    width: 0,
};

const KINDS: [(&str, bool); 2] = [("struct", false), ("union", true)];

/// The structures and unions that were read, and the items of their module.
#[derive(Drop)]
pub(crate) struct Records {
    module: Module,
    layouts: Layouts,
    names: NameMap,
    list: Items<RecordTy>,
    count: u32,
}

impl Records {
    /// None yet, in the module of this name.
    pub(crate) fn new(alloc: Global, name: Name) -> Records {
        Records {
            module: Module {
                name,
                items: Items::new(alloc),
            },
            layouts: Layouts::new(alloc),
            names: NameMap::new(alloc, 0, true),
            list: Items::new(alloc),
            count: 0,
        }
    }

    /// Reads one more, and writes it as an item.
    pub(crate) fn step(&mut self, alloc: Global, asked: &mut Asked) {
        let kind = asked.named(&KINDS);
        let is_union = asked.found(kind, false);
        let tag = asked.word();
        let members = members_left(&self.layouts, alloc, asked);
        asked.begin(tag);
        let one = RecordTy {
            number: self.count,
            tag: Some(Name::of(asked.bytes(alloc))),
            is_union,
            members,
        };
        self.count = self.count.saturating_add(1);
        self.add(alloc, one, asked);
    }

    // Lays one out, writes it and keeps it.
    fn add(&mut self, alloc: Global, one: RecordTy, asked: &mut Asked)
        requires complete { All (IsMemberComplete self.old.layouts) (map view_member one.members) }
        requires bits { All HasFittingBits (map view_member one.members) }
    {
        match lay_out(alloc, &mut self.layouts, &one) {
            Ok(Some(laid)) => {
                asked.had(self.put(alloc, &one, laid));
                asked.had(self.list.push(one));
            }
            Ok(None) => asked.refuse(),
            Err(Memory) => asked.fail(RowFault::Memory),
        }
    }

    // One more item.
    fn put(&mut self, alloc: Global, one: &RecordTy, laid: LaidOut) -> Result<(), Memory>
        requires { IsLaidOut (view_record one.now) laid.spots laid.size laid.align }
    {
        if let Some(tag) = &one.tag {
            self.keep(one.number, tag, laid.size)?;
        }
        let item = record_item(
            alloc,
            one,
            laid.spots.as_slice(),
            laid.size,
            laid.align,
            &mut self.names,
        )?;
        self.module.items.push(item)
    }

    // Keeps the path of a structure or union, and its size.
    fn keep(&mut self, number: u32, tag: &Name, size: u64) -> Result<(), Memory> {
        let name = self.names.rust_name(tag, NameScope::Module)?;
        let path = RPath {
            home: self.module.name.copy()?,
            name: name.copy()?,
        };
        let known = Known {
            named: Named::Record(number),
            unit: 0,
            module: Some(self.module.name.copy()?),
            name,
            symbol: None,
            ty: RTy::Record(path),
            size,
        };
        self.names.keep(known)
    }

    /// Writes the text of the module, and the names of the fields of each record's members.
    pub(crate) fn write(&self, alloc: Global, asked: &mut Asked, out: &mut Answer) {
        if let Some(bytes) = asked.had(self.text(alloc)) {
            out.bytes(bytes.as_slice());
        }
        for one in self.list.as_slice() {
            out.text(" |");
            self.write_fields(alloc, one, asked, out);
        }
    }

    // The text of the module.
    fn text(&self, alloc: Global) -> Result<Items<u8>, Memory> {
        let lines = module_lines(alloc, &self.module)?;
        bytes_of(alloc, lines.as_slice())
    }

    // Writes the names of the fields of a record's members, with `-` where one has none.
    fn write_fields(&self, alloc: Global, one: &RecordTy, asked: &mut Asked, out: &mut Answer) {
        let mut index = 0;
        for member in one.members.as_slice() {
            out.text(" ");
            let spot = asked.found(self.layouts.member(one.number, index), NO_SPOT);
            match asked.had(rust_type(alloc, &member.ty, &self.names)) {
                Some(ty) if member.bits.is_none() => {
                    self.write_field(one.number, spot, ty.get(), out);
                }
                _ => out.text("-"),
            }
            index = index.saturating_add(1);
        }
    }

    // Writes the name of the field that stands at a spot of a record with a type, if one does.
    fn write_field(&self, number: u32, spot: Spot, ty: &RTy, out: &mut Answer) {
        match field_name(&self.names, number, spot, ty) {
            Some(name) => out.bytes(name.bytes()),
            None => out.text("-"),
        }
    }
}
