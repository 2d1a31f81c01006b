// What `portintransition` says.
ghost use Rattle.std.specs.Prelude.{◌≡◌, ◌&&◌};
ghost use Rattle.std.specs.Option.{option_map};
ghost use Rattle.quantity.specs.Bytes.{without_outer_blanks};
ghost use Rattle.quantity.specs.Names.{is_name};
ghost use Rattle.source_text.specs.Shown.{numbers_of};
ghost use Rattle.model_text.specs.Forms as F;
ghost use Rattle.model_walk.specs.PortRule.{port_rule_of};

use quantity::digits::cut_at;
use quantity::name::is_name;
use source_text::Tuple;
use source_text::line::trimmed;
use source_text::tuples::named_tuple;

/// `port@group(tuple) rules`: a port of the cell at a place, and the name of its rules.
#[derive(Clone, Copy)]
pub struct PortRuleText<'a> {
    pub port: &'a [u8],
    pub place: Tuple,
    pub rules: &'a [u8],
}

/// What a text says of a port of a cell of the group; None where it has another form.
pub(crate) fn port_rule_text<'a>(group: &[u8], text: &'a [u8]) -> Option<PortRuleText<'a>>
    ensures { option_map port_rule_of result ≡ F.port_rule_text group.now text.now }
{
    let (front, rules) = cut_at(b')', text);
    let (port, place) = port_and_place(group, front)?;
    if !is_behind_blank(rules) {
        return None;
    }
    Some(PortRuleText {
        port,
        place,
        rules: trimmed(rules),
    })
}

/// The port and the place, in a text that lacks the closing parenthesis.
fn port_and_place<'a>(group: &[u8], text: &'a [u8]) -> Option<(&'a [u8], Tuple)>
    ensures { option_map (λ p. (p.0.now, numbers_of p.1)) result
        ≡ F.port_and_place group.now text.now }
{
    let (port, behind) = cut_at(b'@', text);
    let named = named_tuple(behind)?;
    if is_name(port) && named.name == group {
        Some((port, named.place))
    } else {
        None
    }
}

/// Whether this is a blank and then a name, with blanks around it.
fn is_behind_blank(rules: &[u8]) -> bool
    ensures { result ≡ (F.begins_with_blank rules.now && is_name (without_outer_blanks rules.now)) }
{
    begins_with_blank(rules) && is_name(trimmed(rules))
}

fn begins_with_blank(text: &[u8]) -> bool
    ensures { result ≡ F.begins_with_blank text.now }
{
    matches!(text, [b' ' | b'\t', ..])
}
