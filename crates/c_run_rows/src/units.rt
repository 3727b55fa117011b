use crate::asked::Asked;
use cr_base::Items;
use cx_units::Source;
use std::alloc::Global;

/// The units of a text.
pub(crate) fn sources(alloc: Global, text: &str, asked: &mut Asked) -> Items<Source> {
    let mut sources = Items::new(alloc);
    for unit in text.split("$u") {
        let mut read = Asked::new(unit);
        let source = Source::Bytes(Items::of(read.bytes(alloc)));
        if let Some(fault) = read.fault() {
            asked.fail(fault);
        }
        asked.had(sources.push(source));
    }
    sources
}
