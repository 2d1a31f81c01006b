// One atomic component: its box is taken and settled.
ghost use Rattle.std.specs.Prelude.{◌≡◌, ◌<◌, Some, length, slice_get, IfOk, OnOk, IfErr, IsTrue};
ghost use Rattle.std.specs.List.{HoldsAt};
ghost use Rattle.std.specs.Option.{option_map};
ghost use Rattle.atomic_face.specs.Once.{are_once};
ghost use Rattle.atomic_face.specs.Stocked.{ChangesBox, TakesFirst};
ghost use Rattle.model_text.specs.Refusals.{refusal};
ghost use Rattle.model_text.specs.Stock.{params_of};
ghost use Rattle.model_text.specs.Walk as W;
ghost use Rattle.model_walk.specs.Shown.{item_of, refusal_of};
ghost use Rattle.model_build.specs.Taken.{HasOnce, Adds, Settles, lacks, component_lacks};
ghost use Rattle.model_build.specs.Taken.{off_of_box, kind_of_stock, stop_of_settling};
ghost use Rattle.model_build.specs.Settled.{classes_of};

use crate::params::params_of;
use atomic_face::{AtomicModel, BoxNo, Class, SettleRefusal, Stock, StockRefusal};
use ma_lines::Sections;
use model_text::Kind;
use model_tree::Atomic;
use model_walk::item::{class_of, name_of};
use model_walk::names::known_name;
use model_walk::{Item, Refused, Stop};
use std::alloc::{AllocError, Global};

/// Takes a box for a component and settles it, and puts the component behind those that were found.
pub(crate) fn add_component<M: AtomicModel>(
    alloc: Global,
    sections: &Sections,
    item: &Item<'_>,
    stock: &mut Stock<M>,
    found: &mut Vec<Atomic>,
) -> Result<(), Stop>
    requires { HasOnce sections.now (item_of item.now) }
    ensures adds { OnOk result
        (Adds sections.now (item_of item.now) stock.old stock.new found.old.items found.new.items) }
    ensures refused { (why : _) → result ≡ Err (Stop.Refused why)
        → component_lacks sections.now stock.old (item_of item.now) ≡ Some (refusal_of why) }
    ensures classes { classes_of stock.new ≡ classes_of stock.old }
{
    let Some(class) = Class::of_name(class_of(item)) else {
        return Err(Stop::Refused(Refused {
            line: item.line,
            kind: Kind::UnknownClass,
        }));
    };
    let at = take_box(item.line, class, stock)?;
    settle_box(alloc, sections, item, at, stock)?;
    let name = known_name(alloc, name_of(item))?;
    found
        .push(Atomic { name, class, at })
        .map_err(AllocError::from)?;
    Ok(())
}

/// The first free box of the class, which is taken now.
fn take_box<M: AtomicModel>(line: u32, class: Class, stock: &mut Stock<M>) -> Result<BoxNo, Stop>
    ensures taken { IfOk result (λ at. TakesFirst class stock.old stock.new (Ok at)) }
    ensures refused { (why : _) → result ≡ Err (Stop.Refused why)
        → option_map (refusal line) (lacks stock.old class) ≡ Some (refusal_of why) }
    ensures classes { classes_of stock.new ≡ classes_of stock.old }
{
    match stock.take(class) {
        Ok(at) => Ok(at),
        Err(why) => Err(Stop::Refused(Refused {
            line,
            kind: kind_of(why),
        })),
    }
}

fn kind_of(why: StockRefusal) -> Kind
    ensures { result ≡ kind_of_stock why }
{
    match why {
        StockRefusal::UnknownClass => Kind::UnknownClass,
        StockRefusal::OutOfStock => Kind::OutOfStock,
    }
}

/// Gives a box the settings and the start of a component's parameters.
fn settle_box<M: AtomicModel>(
    alloc: Global,
    sections: &Sections,
    item: &Item<'_>,
    at: BoxNo,
    stock: &mut Stock<M>,
) -> Result<(), Stop>
    requires at { at.0 < length stock.old }
    requires once { HoldsAt
        (λ s. IsTrue (are_once s.box.kind (params_of sections.now
        (item_of item.now)))) stock.old at.0 }
    ensures settles { OnOk result
        (ChangesBox (Settles (params_of sections.now
        (item_of item.now))) at.0 stock.old stock.new) }
    ensures refused { (why : _) → result ≡ Err (Stop.Refused why) → HoldsAt
        (λ s. off_of_box (params_of sections.now (item_of item.now)) s.box ≡ Some (refusal_of why))
        stock.old at.0 }
    ensures classes { classes_of stock.new ≡ classes_of stock.old }
{
    let params = params_of(alloc, sections, item)?;
    match stock.settle(alloc, at, &params) {
        Ok(()) => Ok(()),
        Err(why) => Err(stop_of(why)),
    }
}

fn stop_of(why: SettleRefusal) -> Stop
    ensures { result ≡ stop_of_settling why }
{
    match why {
        SettleRefusal::BadParameter(line) => Stop::Refused(Refused {
            line,
            kind: Kind::BadParameter,
        }),
        SettleRefusal::Memory => Stop::Memory,
    }
}
