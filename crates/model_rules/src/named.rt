// The rules sections that a group names, with the lines of the entries.
ghost use Rattle.std.specs.Prelude.{◌≡◌, map, codes, IfOk};
ghost use Rattle.std.specs.List.{flat_map};
ghost use Rattle.std.specs.Str.{bytes_eq};
ghost use Rattle.ma_lines.specs.InCode.{section_of};
ghost use Rattle.model_text.specs.Rules as R;
ghost use Rattle.model_walk.specs.Shown.{item_of};
ghost use Rattle.model_rules.specs.Parts.{IsPlaced};
ghost use Rattle.model_walk.specs.LeastOf.{IsLeastOf};

use ma_lines::{Entry, Sections};
use model_text::Kind;
use model_walk::entries::section_named;
use model_walk::least::least;
use model_walk::{Item, PlacedGroup, Refused};
use std::alloc::{AllocError, Global};

/// All that a group names: that of `localtransition` first, then those of its zones and of its
/// ports.
pub(crate) fn rules_named<'a>(
    alloc: Global,
    group: &PlacedGroup<'a>,
) -> Result<Vec<Item<'a>>, AllocError>
    requires { IsPlaced group.now }
    ensures { IfOk result (λ items. map item_of items.items
        ≡ R.rules_named (section_of group.now.section.now)) }
{
    let entries = group.section.entries.iter();
    let local = entries.filter(|entry| is_local(entry)).map(|entry| Item {
        line: entry.line,
        text: entry.value.as_bytes(),
    });
    let zones = group.zone_rules.iter().map(|item| *item);
    let ports = group.port_rules.iter().map(|rule| Item {
        line: rule.line,
        text: rule.rules,
    });
    local.chain(zones).chain(ports).collect(alloc)
}

fn is_local(entry: &Entry) -> bool
    ensures { result ≡ bytes_eq entry.now.key (codes "localtransition") }
{
    entry.key.as_bytes() == b"localtransition".as_slice()
}

/// The least refusal of names that no section has.
pub(crate) fn absent(sections: &Sections, items: &[Item<'_>]) -> Option<Refused>
    ensures { IsLeastOf (flat_map (R.absent sections.now) (map item_of items.now)) result }
{
    let mut first = None;
    for item in items {
        first = least(first, absent_item(sections, item));
    }
    first
}

fn absent_item(sections: &Sections, item: &Item<'_>) -> Option<Refused>
    ensures { IsLeastOf (R.absent sections.now (item_of item.now)) result }
{
    match section_named(sections, item.text) {
        Some(_section) => None,
        None => Some(Refused {
            line: item.line,
            kind: Kind::NoSection,
        }),
    }
}
