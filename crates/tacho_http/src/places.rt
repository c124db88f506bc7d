//! What paths offer. The routes come from the table of commands.

ghost use Rattle.std.specs.Prelude.{◌≡◌, IfOk, OnOk, [], map, option_map};
ghost use Rattle.tacho_message.specs.declared.method.Method.TheVariants.{Get, Post};
ghost use Rattle.tacho_desk.specs.Commands.{row_of};
ghost use Rattle.tacho_http.specs.Asked.{asker_of, wish_at, wish_by, wish_found};
ghost use Rattle.tacho_http.specs.Offers.{asker_of_path, offer_at, offers_in, offers_of, want_of as want_at};
ghost use Rattle.tacho_http.specs.Routes.{driver_part, ending_of_route, front_part, last_part, named_in, named_found, next_part, routes, with_offers, word_part};

use matchit::{InsertError, Router};
use memchr::{memchr, memrchr};
use std::alloc::Global;
use std::marker::Model;
use tacho_desk::{Act, Command, Want, Wish, command_table};
use tacho_message::{Method, Status};
use tacho_state::Caller;

/// The length of `/drivers/`.
const OF_DRIVER: usize = 9;

/// Who asks.
#[derive(Clone, Copy, PartialEq, Eq)]
pub(crate) enum Asker {
    /// The office, for all drivers.
    Office,
    /// A driver, for their own data.
    Driver,
}

/// How many arguments a path ends with, beside the driver's number.
#[derive(Clone, Copy)]
pub(crate) enum Ending {
    /// None.
    Fixed,
    /// One, the last part.
    Word,
    /// Two, the last two parts.
    Words,
}

/// What a path offers for a method: who may ask there, for what, and with how many arguments.
#[derive(Clone, Copy)]
pub(crate) struct Place {
    pub asker: Asker,
    pub want: Want,
    pub ending: Ending,
}

/// Who asks at a path: a driver if it begins with `/me/`, otherwise the office.
fn asker_at(path: &str) -> Asker
    ensures { result ≡ asker_of_path path.now }
{
    if path.as_bytes().starts_with(b"/me/") {
        Asker::Driver
    } else {
        Asker::Office
    }
}

/// How many arguments the paths of a route end with, by the text of the route.
fn ending_of(route: &str) -> Ending
    ensures { result ≡ ending_of_route route.now }
{
    if route.as_bytes().ends_with(b"/{next}") {
        Ending::Words
    } else if route.as_bytes().ends_with(b"/{word}") {
        Ending::Word
    } else {
        Ending::Fixed
    }
}

/// Adds the paths at which something is asked for.
fn add_paths(router: &mut Router<Place>, paths: &[&str], want: Want) -> Result<(), InsertError>
    ensures { OnOk result (router.new ≡ with_offers router.old (map (offer_at want) (map (λ path. path.now) paths.now))) }
{
    for path in paths {
        let asker = asker_at(path);
        let ending = ending_of(path);
        router.insert(
            path,
            Place {
                asker,
                want,
                ending,
            },
        )?;
    }
    Ok(())
}

/// What is asked for by a request for what a command does.
fn want_of(act: Act) -> Option<Want>
    ensures { result ≡ want_at act }
{
    match act {
        Act::AtDesk(want) => Some(want),
        Act::Version => Some(Want::Version),
        _ => None,
    }
}

/// Adds the paths of a command, if its requests are posted or if they aren't.
fn add_command(
    router: &mut Router<Place>,
    command: &Command,
    posted: bool,
) -> Result<(), InsertError>
    ensures { OnOk result (router.new ≡ with_offers router.old (offers_of posted (row_of command.now))) }
{
    match want_of(command.act) {
        Some(want) if want.changes() == posted => add_paths(router, command.paths, want),
        _ => Ok(()),
    }
}

/// Makes a router of the paths of a table's commands, those that are posted or those that aren't.
fn router_of(alloc: Global, table: &[Command], posted: bool) -> Result<Router<Place>, InsertError>
    ensures { IfOk result (λ r. r ≡ with_offers [] (offers_in posted (map row_of table.now))) }
{
    let mut router = Router::new(alloc);
    for command in table {
        add_command(&mut router, command, posted)?;
    }
    Ok(router)
}

/// The routes of all commands. A server makes them once.
#[derive(Drop)]
pub struct Routes {
    get: Router<Place>,
    post: Router<Place>,
}

impl Model for Routes {
    ghost Value = { Unit {0} };

    ghost view = { λ _. tt };

    ghost invariant = { λ r. (r.get ≡ routes Get) × (r.post ≡ routes Post) };
}

/// What a path names: who may ask there, and for what. The driver's number is the part after `/drivers/`. The other arguments are the last
/// parts.
#[derive(Clone, Copy)]
struct Found<'p> {
    asker: Asker,
    wish: Wish<'p>,
}

impl Routes {
    /// Makes the routes. Fails if memory runs out.
    pub fn new(alloc: Global) -> Result<Routes, InsertError> {
        let get = router_of(alloc, command_table(), false)?;
        let post = router_of(alloc, command_table(), true)?;
        Ok(Routes { get, post })
    }

    /// Finds what is asked for. Fails with 404 if the path names nothing, with 405 if it names nothing for the method, and with 403 if what
    /// it names is for the other asker.
    pub(crate) fn find<'p>(
        &self,
        caller: Caller,
        method: Option<Method>,
        path: &'p str,
    ) -> Result<Wish<'p>, Status>
        ensures { wish_found result ≡ wish_by (asker_of caller) method (named_in (routes Get) path.now) (named_in (routes Post) path.now) }
    {
        let asker = match caller {
            Caller::Office => Asker::Office,
            Caller::Driver(_) => Asker::Driver,
        };
        let get = find_in(&self.get, path);
        let post = find_in(&self.post, path);
        match method {
            Some(Method::Get) => asked_at(asker, get, post),
            Some(Method::Post) => asked_at(asker, post, get),
            None => asked_at(asker, None, get.or(post)),
        }
    }
}

/// What is found for a method; otherwise 405 if something is found for another method, and 404 if nothing is. 403 if what is found is for
/// the other asker.
fn asked_at<'p>(
    asker: Asker,
    found: Option<Found<'p>>,
    other: Option<Found<'p>>,
) -> Result<Wish<'p>, Status>
    ensures { wish_found result ≡ wish_at asker (option_map named_found found.entry) (option_map named_found other.entry) }
{
    match found {
        Some(found) if found.asker == asker => Ok(found.wish),
        Some(_) => Err(Status::Forbidden),
        None if other.is_some() => Err(Status::MethodNotAllowed),
        None => Err(Status::NotFound),
    }
}

/// The part of a path after `/drivers/`.
fn driver_of(path: &[u8]) -> &[u8]
    ensures { result.now ≡ driver_part path.now }
{
    if path.len() < OF_DRIVER {
        return &[];
    }
    let rest = &path[OF_DRIVER..];
    match memchr(b'/', rest) {
        Some(end) => &rest[..end],
        None => rest,
    }
}

/// The last part of a path.
fn last_of(path: &[u8]) -> &[u8]
    ensures { result.now ≡ last_part path.now }
{
    match memrchr(b'/', path) {
        Some(slash) => &path[slash + 1..],
        None => path,
    }
}

/// A path without its last part and the slash before it.
fn front_of(path: &[u8]) -> &[u8]
    ensures { result.now ≡ front_part path.now }
{
    match memrchr(b'/', path) {
        Some(slash) => &path[..slash],
        None => &[],
    }
}

/// The argument other than the driver's number: the last part of a path, or the part before it if there are two. An empty text if there is
/// none.
fn word_of(ending: Ending, path: &[u8]) -> &[u8]
    ensures { result.now ≡ word_part ending path.now }
{
    match ending {
        Ending::Fixed => &[],
        Ending::Word => last_of(path),
        Ending::Words => last_of(front_of(path)),
    }
}

/// The argument after that: the last part of a path, if there are two. An empty text if there is none.
fn next_of(ending: Ending, path: &[u8]) -> &[u8]
    ensures { result.now ≡ next_part ending path.now }
{
    match ending {
        Ending::Words => last_of(path),
        _ => &[],
    }
}

/// Finds what a path names in a router of one method.
fn find_in<'p>(router: &Router<Place>, path: &'p str) -> Option<Found<'p>>
    ensures { option_map named_found result ≡ named_in router.now path.now }
{
    match router.at(path) {
        Ok(found) => Some(Found {
            asker: found.value.asker,
            wish: Wish {
                want: found.value.want,
                driver: driver_of(path.as_bytes()),
                word: word_of(found.value.ending, path.as_bytes()),
                next: next_of(found.value.ending, path.as_bytes()),
            },
        }),
        Err(_) => None,
    }
}
