ghost use Rattle.std.specs.Prelude.{◌≡◌, true, codes, IfOk, OnErr};
ghost use Rattle.std.specs.Str.{IsUtf8};
ghost use Rattle.wc_events.specs.Nicks.{nicks_objects};
ghost use Rattle.wc_objects.specs.Forms.{well_formed};
ghost use Rattle.wc_relaycmd.specs.Utf8.{RequestIsUtf8, CommandUtf8};
ghost use Rattle.wc_session.specs.declared.client.Client.{Client};
ghost use Rattle.wc_session.specs.Completions.{completion_objects};
ghost use Rattle.wc_session.specs.Hotlists.{hotlist_objects};
ghost use Rattle.wc_session.specs.RequestContext.{context_seen};
ghost use Rattle.wc_session.specs.Reply.{hdata_answered, hdata_objects, nicklist_objects, replies};
ghost use Rattle.wc_session.specs.Reply.{input_answer};
ghost use Rattle.wc_session.specs.Reply.{info_objects, infolist_objects, test_objects, pong_objects};
ghost use Rattle.wc_session.specs.Heeded.{password_of, masks_of};
ghost use Rattle.wc_session.specs.Reply.{silent, is_open, served, reply_of};
ghost use Rattle.wc_session.specs.Sending.{reply, null_hdata};
ghost use Rattle.wc_session.specs.Sync.{synchronized, desynchronized};
ghost use Rattle.wc_session.specs.Served.{GivesAnswer, IsQuiet};

use crate::client::Client;
use crate::completions::completion_objects;
use crate::handshake::shake;
use crate::heeded::{masks_of, password_of};
use crate::hotlists::{asks_hotlist, hotlist_objects};
use crate::login::log_in;
use crate::names::buffer_named;
use crate::objects::{info_objects, infolist_objects, nicks_asked, pong_objects, test_objects};
use crate::outcome::Outcome;
use crate::paths::reply_walk;
use crate::request_context::RequestContext;
use crate::sending::{null_hdata, reply, reply_nicks};
use crate::sync::{desynchronize, synchronize};
use bytes::BytesMut;
use std::alloc::Global;
use wc_buffers::Buffers;
use wc_events::Nicks;
use wc_hotlist::Hotlist;
use wc_objects::Object;
use wc_relaycmd::{Command, Request};
use wc_text::{Cause, Items, NoMemory, Text};
use wc_world::World;

/// Serves a request by these objects as its reply.
pub fn give(
    alloc: Global,
    out: &mut BytesMut,
    id: &[u8],
    objects: &[Object],
) -> Result<Outcome, NoMemory>
    requires formed { well_formed objects.now ≡ true }
    requires text { IsUtf8 id.now }
    ensures ok { IfOk result (λ outcome. (client : Client) →
        GivesAnswer out.old.items out.new.items outcome client
        (replies client (reply id.now objects.now))) }
    ensures err { OnErr result (out.new.items ≡ out.old.items) }
{
    if !reply(alloc, out, id, objects)? {
        return Ok(Outcome::Silent);
    }
    Ok(Outcome::Replied)
}

/// Serves `hdata` on the path of the hotlist.
fn give_hotlist(
    alloc: Global,
    out: &mut BytesMut,
    hotlist: &Hotlist,
    id: &[u8],
    keys: &[u8],
) -> Result<Outcome, NoMemory>
    requires { IsUtf8 id.now }
    ensures ok { IfOk result (λ outcome. (client : Client) →
        GivesAnswer out.old.items out.new.items outcome client
        (replies client (reply id.now (hotlist_objects hotlist.now keys.now)))) }
    ensures err { OnErr result (out.new.items ≡ out.old.items) }
{
    let objects = hotlist_objects(alloc, hotlist, keys)?;
    give(alloc, out, id, objects.as_slice())
}

/// Serves `hdata` on another path: what the path leads to, and the null hdata where the text spells
/// no path or the walk is refused.
fn give_walk(
    alloc: Global,
    out: &mut BytesMut,
    world: &World,
    id: &[u8],
    path: &[u8],
    keys: &[u8],
) -> Result<Outcome, NoMemory>
    requires { IsUtf8 id.now }
    ensures ok { IfOk result (λ outcome. (client : Client) →
        GivesAnswer out.old.items out.new.items outcome client
        (replies client (reply id.now (hdata_objects world.now path.now keys.now)))) }
    ensures err { OnErr result (out.new.items ≡ out.old.items) }
{
    if !reply_walk(alloc, out, id, world, path, keys)? {
        return Ok(Outcome::Silent);
    }
    Ok(Outcome::Replied)
}

/// Serves `hdata`.
#[tactic(auto, unfolding(crate::specs::Reply::hdata_answered))]
fn give_hdata(
    alloc: Global,
    out: &mut BytesMut,
    world: &World,
    hotlist: &Hotlist,
    id: &[u8],
    path: &[u8],
    keys: &[u8],
) -> Result<Outcome, NoMemory>
    requires { IsUtf8 id.now }
    ensures ok { IfOk result (λ outcome. (client : Client) →
        GivesAnswer out.old.items out.new.items outcome client
        (replies client (reply id.now
        (hdata_answered world.now hotlist.now path.now keys.now)))) }
    ensures err { OnErr result (out.new.items ≡ out.old.items) }
{
    if asks_hotlist(path) {
        return give_hotlist(alloc, out, hotlist, id, keys);
    }
    give_walk(alloc, out, world, id, path, keys)
}

/// Serves `completion`.
fn give_completion(
    alloc: Global,
    out: &mut BytesMut,
    world: &World,
    commands: &[Text],
    id: &[u8],
    buffer: &Text,
    position: i64,
    text: &Text,
) -> Result<Outcome, NoMemory>
    requires id { IsUtf8 id.now }
    requires text { IsUtf8 text.now }
    ensures ok { IfOk result (λ outcome. (client : Client) →
        GivesAnswer out.old.items out.new.items outcome client
        (replies client (reply id.now (completion_objects world.now commands.now buffer.now
        position text.now)))) }
    ensures err { OnErr result (out.new.items ≡ out.old.items) }
{
    let objects = completion_objects(
        alloc,
        world,
        commands,
        buffer.as_slice(),
        position,
        text.as_slice(),
    )?;
    give(alloc, out, id, objects.as_slice())
}

/// Serves a request by groups and nicks as its reply.
fn give_list(
    alloc: Global,
    out: &mut BytesMut,
    id: &[u8],
    nicks: Nicks<'_>,
) -> Result<Outcome, NoMemory>
    requires formed { well_formed (nicks_objects nicks) ≡ true }
    requires text { IsUtf8 id.now }
    ensures ok { IfOk result (λ outcome. (client : Client) →
        GivesAnswer out.old.items out.new.items outcome client
        (replies client (reply id.now (nicks_objects nicks.entry)))) }
    ensures err { OnErr result (out.new.items ≡ out.old.items) }
{
    if !reply_nicks(alloc, out, id, nicks)? {
        return Ok(Outcome::Silent);
    }
    Ok(Outcome::Replied)
}

/// Serves `nicklist`: the nicklists of all buffers, or that of the buffer that is named, and the
/// null hdata where there is no such buffer.
fn give_nicks(
    alloc: Global,
    out: &mut BytesMut,
    world: &World,
    id: &[u8],
    buffer: &Option<Text>,
) -> Result<Outcome, NoMemory>
    requires { IsUtf8 id.now }
    ensures ok { IfOk result (λ outcome. (client : Client) →
        GivesAnswer out.old.items out.new.items outcome client
        (replies client (reply id.now (nicklist_objects world.now buffer.now)))) }
    ensures err { OnErr result (out.new.items ≡ out.old.items) }
{
    match nicks_asked(world, buffer) {
        Some(nicks) => give_list(alloc, out, id, nicks),
        None => give_null(alloc, out, id),
    }
}

fn input(buffers: &Buffers, buffer: &[u8], text: Text) -> Outcome
    ensures { (client : Client) →
        IsQuiet result client (input_answer buffers.now client buffer.now text) }
{
    match buffer_named(buffers, buffer) {
        Some(buffer) => Outcome::Input { buffer, text },
        None => Outcome::Silent,
    }
}

fn is_open(command: &Command) -> bool
    ensures { result ≡ is_open command.now }
{
    matches!(
        command,
        Command::Handshake(_) | Command::Init(_) | Command::Quit
    )
}

/// Serves `info`, which is null where the information is unknown.
fn give_info(alloc: Global, out: &mut BytesMut, id: &[u8], name: Text) -> Result<Outcome, NoMemory>
    requires id { IsUtf8 id.now }
    requires name { IsUtf8 name }
    ensures ok { IfOk result (λ outcome. (client : Client) →
        GivesAnswer out.old.items out.new.items outcome client
        (replies client (reply id.now (info_objects name)))) }
    ensures err { OnErr result (out.new.items ≡ out.old.items) }
{
    let objects = info_objects(alloc, name)?;
    give(alloc, out, id, objects.as_slice())
}

/// Serves `infolist`, which is empty where the list is unknown.
fn give_infolist(
    alloc: Global,
    out: &mut BytesMut,
    world: &World,
    id: &[u8],
    name: &Text,
    argument: &Text,
) -> Result<Outcome, NoMemory>
    requires id { IsUtf8 id.now }
    requires name { IsUtf8 name.now }
    ensures ok { IfOk result (λ outcome. (client : Client) →
        GivesAnswer out.old.items out.new.items outcome client
        (replies client (reply id.now (infolist_objects world.now name.now argument.now)))) }
    ensures err { OnErr result (out.new.items ≡ out.old.items) }
{
    let objects = infolist_objects(alloc, world, name, argument)?;
    give(alloc, out, id, objects.as_slice())
}

/// Serves a request by the null hdata.
fn give_null(alloc: Global, out: &mut BytesMut, id: &[u8]) -> Result<Outcome, NoMemory>
    requires { IsUtf8 id.now }
    ensures ok { IfOk result (λ outcome. (client : Client) →
        GivesAnswer out.old.items out.new.items outcome client
        (replies client (reply id.now null_hdata))) }
    ensures err { OnErr result (out.new.items ≡ out.old.items) }
{
    give(alloc, out, id, null_hdata(alloc).as_slice())
}

fn give_test(alloc: Global, out: &mut BytesMut, id: &[u8]) -> Result<Outcome, NoMemory>
    requires { IsUtf8 id.now }
    ensures ok { IfOk result (λ outcome. (client : Client) →
        GivesAnswer out.old.items out.new.items outcome client
        (replies client (reply id.now test_objects))) }
    ensures err { OnErr result (out.new.items ≡ out.old.items) }
{
    give(alloc, out, id, test_objects(alloc)?.as_slice())
}

/// Serves `ping`, whatever the id of the request.
fn give_pong(alloc: Global, out: &mut BytesMut, text: Text) -> Result<Outcome, NoMemory>
    requires { IsUtf8 text }
    ensures ok { IfOk result (λ outcome. (client : Client) →
        GivesAnswer out.old.items out.new.items outcome client
        (replies client (reply (codes "_pong") (pong_objects text)))) }
    ensures err { OnErr result (out.new.items ≡ out.old.items) }
{
    give(alloc, out, b"_pong", pong_objects(text).as_slice())
}

/// Serves `sync`, which gets no reply.
fn serve_sync(
    alloc: Global,
    client: &mut Client,
    world: &World,
    names: Items<Text>,
    options: Option<Items<Text>>,
) -> Result<Outcome, NoMemory>
    ensures ok { IfOk result (λ outcome. IsQuiet outcome client.new
        (silent (synchronized world.now.groups client.old names options))) }
    ensures err { OnErr result (client.new ≡ client.old) }
{
    let made = synchronize(alloc, client, world.buffers(), &names, &options);
    drop(options);
    made?;
    Ok(Outcome::Silent)
}

/// Serves `desync`, which gets no reply.
fn serve_desync(
    client: &mut Client,
    world: &World,
    names: Items<Text>,
    options: Option<Items<Text>>,
) -> Outcome
    ensures { IsQuiet result client.new
        (silent (desynchronized world.now.groups client.old names options)) }
{
    desynchronize(client, world.buffers(), &names, &options);
    drop(options);
    Outcome::Silent
}

/// Serves a command. Where memory is refused nothing changes.
#[tactic(auto, unfolding(crate::specs::Reply::served))]
fn serve_command(
    alloc: Global,
    out: &mut BytesMut,
    client: &mut Client,
    world: &World,
    context: RequestContext<'_>,
    id: &[u8],
    command: Command,
) -> Result<Outcome, NoMemory>
    requires id { IsUtf8 id.now }
    requires command { CommandUtf8 command }
    ensures ok { IfOk result (λ outcome. GivesAnswer out.old.items out.new.items outcome client.new
        (served world.now (context_seen context.entry) client.old id.now command)) }
    ensures err { OnErr result (out.new.items ≡ out.old.items) }
    ensures still { OnErr result (client.new ≡ client.old) }
{
    match command {
        Command::Handshake(pairs) => {
            shake(alloc, out, client, masks_of(context.options), id, &pairs)
        }
        Command::Init(pairs) => log_in(
            alloc,
            client,
            masks_of(context.options),
            password_of(context.options),
            &pairs,
        ),
        Command::Hdata { path, keys } => give_hdata(
            alloc,
            out,
            world,
            context.hotlist,
            id,
            path.as_slice(),
            keys.as_slice(),
        ),
        Command::Info(name) => give_info(alloc, out, id, name),
        Command::Infolist { name, argument } => {
            give_infolist(alloc, out, world, id, &name, &argument)
        }
        Command::Nicklist(buffer) => give_nicks(alloc, out, world, id, &buffer),
        Command::Completion {
            buffer,
            position,
            text,
        } => give_completion(
            alloc,
            out,
            world,
            context.commands,
            id,
            &buffer,
            position,
            &text,
        ),
        Command::Input { buffer, text } => Ok(input(world.buffers(), buffer.as_slice(), text)),
        Command::Sync {
            buffers,
            options: asked,
        } => serve_sync(alloc, client, world, buffers, asked),
        Command::Desync {
            buffers,
            options: asked,
        } => Ok(serve_desync(client, world, buffers, asked)),
        Command::Test => give_test(alloc, out, id),
        Command::Ping(text) => give_pong(alloc, out, text),
        Command::Quit => Ok(Outcome::Leave(Cause::Quit)),
    }
}

/// Serves a request. Before login a handshake, `init` and `quit` are served, and any other request
/// drops the client. Where memory is refused nothing changes.
#[tactic(auto, unfolding(crate::specs::Reply::reply_of))]
pub fn serve(
    alloc: Global,
    out: &mut BytesMut,
    client: &mut Client,
    world: &World,
    context: RequestContext<'_>,
    request: Request,
) -> Result<Outcome, NoMemory>
    requires { RequestIsUtf8 request }
    ensures ok { IfOk result (λ outcome. GivesAnswer out.old.items out.new.items outcome client.new
        (reply_of world.now (context_seen context.entry) client.old request)) }
    ensures err { OnErr result (out.new.items ≡ out.old.items) }
    ensures still { OnErr result (client.new ≡ client.old) }
{
    if !client.logged_in && !is_open(&request.command) {
        drop(request);
        return Ok(Outcome::Leave(Cause::LoginFailed));
    }
    let Request { id, command } = request;
    serve_command(alloc, out, client, world, context, id.as_slice(), command)
}
