//! The answers to the requests `info` and `infolist`.

ghost use Rattle.std.specs.Prelude.{◌≡◌, ◌++◌, ◌∷◌, [], IfOk, OnOk};
ghost use Rattle.std.specs.Option.{option_copied};
ghost use Rattle.wc_buffers.specs.Calls.{entry_of};
ghost use Rattle.wc_keys.specs.Keys.{key_name};
ghost use Rattle.wc_hdata.specs.Infos.{info_of, infolist_object, buffer_item, buffer_items};
ghost use Rattle.wc_hdata.specs.Infos.{listed, names_of, setting_item, setting_of, setting_variables};
ghost use Rattle.wc_hdata.specs.Infos.{variable, variables_of};
ghost use Rattle.wc_events.specs.BufferObjects.{text};
ghost use Rattle.wc_hdata.specs.Steps.{all_buffers};

use crate::buffer_values::{number, row_and_vars};
use crate::lists::all_buffers;
use std::alloc::Global;
use wc_buffers::{BufferRow, Buffers};
use wc_events::parts::{text, truth};
use wc_keys::Key;
use wc_objects::{InlVar, Object};
use wc_text::{Handle, Items, NoMemory, Text};
use wc_world::World;

/// The name of the version.
const VERSION: &[u8] = b"version";

/// The name of the version as a number.
const VERSION_NUMBER: &[u8] = b"version_number";

/// The name of the list of buffers.
const BUFFERS: &[u8] = b"buffer";

/// The name of the list of options.
const OPTIONS: &[u8] = b"option";

/// How the time of a line is shown.
const TIME_FORMAT: &[u8] = b"weechat.look.buffer_time_format";

/// What is put after a nick that is completed.
const NICK_COMPLETER: &[u8] = b"weechat.completion.nick_completer";

/// Whether a blank is put after a nick that is completed.
const NICK_ADD_SPACE: &[u8] = b"weechat.completion.nick_add_space";

/// An information of this name. None where it is unknown.
pub fn info(name: &[u8]) -> Option<&'static [u8]>
    ensures { option_copied result ≡ info_of name.now }
{
    if name == VERSION {
        return Some(b"4.0.0");
    }
    if name == VERSION_NUMBER {
        return Some(b"67108864");
    }
    None
}

/// The value of a setting of WeeChat that clients ask for. None for another one.
fn setting(name: &[u8]) -> Option<&'static [u8]>
    ensures { option_copied result ≡ setting_of name.now }
{
    if name == TIME_FORMAT {
        return Some(b"%H:%M:%S");
    }
    if name == NICK_COMPLETER {
        return Some(b":");
    }
    if name == NICK_ADD_SPACE {
        return Some(b"on");
    }
    None
}

/// Puts a variable after others.
#[tactic(auto, unfolding(crate::specs::Infos::variable))]
fn push_variable(
    alloc: Global,
    vars: &mut Items<InlVar>,
    name: &[u8],
    value: Object,
) -> Result<(), NoMemory>
    ensures { OnOk result (vars.new ≡ vars.old ++ variable name.now value ∷ []) }
{
    let name = Text::from_slice(alloc, name)?;
    vars.push(InlVar { name, value })
}

/// Puts a variable of the name of a key after others.
fn push_keyed(
    alloc: Global,
    vars: &mut Items<InlVar>,
    key: Key,
    value: Object,
) -> Result<(), NoMemory>
    ensures { OnOk result (vars.new ≡ vars.old ++ variable (key_name key) value ∷ []) }
{
    push_variable(alloc, vars, key.name(), value)
}

/// Puts a variable that is a text after others.
fn push_text(
    alloc: Global,
    vars: &mut Items<InlVar>,
    key: Key,
    value: &Text,
) -> Result<(), NoMemory>
    ensures { OnOk result (vars.new ≡ vars.old ++ variable (key_name key) (text value.now) ∷ []) }
{
    let value = text(alloc, value)?;
    push_keyed(alloc, vars, key, value)
}

/// Puts the names and the title of a buffer after others.
fn push_names(alloc: Global, vars: &mut Items<InlVar>, row: &BufferRow) -> Result<(), NoMemory>
    ensures { OnOk result (vars.new ≡ vars.old ++ names_of row.now) }
{
    push_text(alloc, vars, Key::FullName, &row.full_name)?;
    push_text(alloc, vars, Key::ShortName, &row.short_name)?;
    push_text(alloc, vars, Key::Title, &row.title)
}

/// What the list of buffers has of one.
#[tactic(auto, unfolding(crate::specs::Infos::variables_of))]
fn variables_of(
    alloc: Global,
    number: i32,
    buffer: Handle,
    row: &BufferRow,
) -> Result<Items<InlVar>, NoMemory>
    ensures { IfOk result (λ vars. vars ≡ variables_of number buffer row.now) }
{
    let mut vars = Items::new(alloc);
    push_variable(alloc, &mut vars, b"pointer", Object::Ptr(buffer.0))?;
    push_keyed(alloc, &mut vars, Key::Number, Object::Int(number))?;
    push_names(alloc, &mut vars, row)?;
    let hidden = Object::Int(i32::from(truth(row.hidden)));
    push_keyed(alloc, &mut vars, Key::Hidden, hidden)?;
    Ok(vars)
}

/// Puts what the list of buffers has of one after others, where it is there.
fn push_listed(
    alloc: Global,
    items: &mut Items<Items<InlVar>>,
    buffers: &Buffers,
    buffer: Handle,
) -> Result<(), NoMemory>
    ensures { OnOk result (items.new ≡ items.old ++ buffer_item buffers.now buffer
        (entry_of buffer buffers.now)) }
{
    if let Some((row, _vars)) = row_and_vars(buffers, buffer) {
        items.push(variables_of(alloc, number(buffers, buffer), buffer, row)?)?;
    }
    Ok(())
}

fn listed_all(alloc: Global, buffers: &Buffers) -> Result<Items<Items<InlVar>>, NoMemory>
    ensures { IfOk result (λ items. items ≡ buffer_items buffers.now (all_buffers buffers.now)) }
{
    let all = all_buffers(alloc, buffers)?;
    let mut items = Items::new(alloc);
    for buffer in all.as_slice() {
        push_listed(alloc, &mut items, buffers, *buffer)?;
    }
    Ok(items)
}

/// Puts a variable that is a text of these bytes after others.
fn push_bytes(
    alloc: Global,
    vars: &mut Items<InlVar>,
    name: &[u8],
    value: &[u8],
) -> Result<(), NoMemory>
    ensures { OnOk result (vars.new ≡ vars.old ++ variable name.now (text value.now) ∷ []) }
{
    let value = Text::from_slice(alloc, value)?;
    push_variable(alloc, vars, name, Object::Str(Some(value)))
}

/// What the list of options has of a setting.
#[tactic(auto, unfolding(crate::specs::Infos::setting_variables))]
fn setting_variables(alloc: Global, name: &[u8], value: &[u8]) -> Result<Items<InlVar>, NoMemory>
    ensures { IfOk result (λ vars. vars ≡ setting_variables name.now value.now) }
{
    let mut vars = Items::new(alloc);
    push_bytes(alloc, &mut vars, Key::FullName.name(), name)?;
    push_bytes(alloc, &mut vars, b"value", value)?;
    Ok(vars)
}

/// The list of the option of this name, which is empty where it is none of the settings.
fn listed_setting(alloc: Global, name: &[u8]) -> Result<Items<Items<InlVar>>, NoMemory>
    ensures { IfOk result (λ items. items ≡ setting_item name.now (setting_of name.now)) }
{
    let mut items = Items::new(alloc);
    if let Some(value) = setting(name) {
        items.push(setting_variables(alloc, name, value)?)?;
    }
    Ok(items)
}

/// The items of the list of this name and of this argument.
fn listed(
    alloc: Global,
    buffers: &Buffers,
    name: &[u8],
    argument: &[u8],
) -> Result<Items<Items<InlVar>>, NoMemory>
    ensures { IfOk result (λ items. items ≡ listed buffers.now name.now argument.now) }
{
    if name == BUFFERS {
        return listed_all(alloc, buffers);
    }
    if name == OPTIONS {
        return listed_setting(alloc, argument);
    }
    Ok(Items::new(alloc))
}

/// The list of informations of this name, as WeeChat's relay protocol answers `infolist`: `buffer`
/// lists all buffers in their order, and `option` the option that the argument names, where it is
/// one of three settings of WeeChat that clients ask for: `weechat.look.buffer_time_format`,
/// `weechat.completion.nick_completer` and `weechat.completion.nick_add_space`. A list of another
/// name is empty.
#[tactic(auto, unfolding(crate::specs::Infos::infolist_object))]
pub fn infolist(
    alloc: Global,
    world: &World,
    name: &[u8],
    argument: &[u8],
) -> Result<Object, NoMemory>
    ensures { IfOk result (λ object. object
        ≡ infolist_object world.now.groups name.now argument.now) }
{
    let items = listed(alloc, world.buffers(), name, argument)?;
    let name = Text::from_slice(alloc, name)?;
    Ok(Object::Inl { name, items })
}
