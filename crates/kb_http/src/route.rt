//! Where a request goes.
ghost use Rattle.std.specs.Prelude.{◌≡◌, ◌==◌, if◌then◌else◌};
ghost use Rattle.kb_http.specs.declared.route.Route.TheVariants.{Invoice, Unknown};
ghost use Rattle.kb_base.specs.Lines.{pieces};
ghost use Rattle.kb_http.specs.Routes.{slash, method_of, path_of, place_of, asked_for, route_of, by_method};
ghost use Rattle.kb_http.specs.Routes.{of_words, of_word, of_accounts, of_account, item_of};
ghost use Rattle.kb_http.specs.Routes.{is_invoice_number};
ghost use Rattle.kb_http.specs.Numbers.{number_of};

use crate::numbers::number;
use crate::pieces::first_piece;
use kb_days::Name;

/// The one method by which a place may be asked for.
#[derive(Clone, Copy, Debug, PartialEq, Eq)]
pub enum Allow {
    Get,
    Post,
}

/// The method of a request. Each other than these two is the same to the service, HEAD too.
#[derive(Clone, Copy, Debug, PartialEq, Eq)]
pub enum Method {
    Get,
    Post,
    Other,
}

impl Method {
    /// The method with this name.
    pub fn new(text: &[u8]) -> Method
        ensures { result ≡ method_of text.now }
    {
        if text == b"GET".as_slice() {
            Method::Get
        } else if text == b"POST".as_slice() {
            Method::Post
        } else {
            Method::Other
        }
    }
}

/// Where a request goes. The first name is that of the account.
#[derive(Clone, Copy, Debug, PartialEq, Eq)]
pub enum Route {
    Commands,
    Janitor,
    Account(Name),
    Invoice(Name, u32),
    Payment(Name, Name),
    Subscription(Name, Name),
    /// A place that is known, by another method than its one.
    NotAllowed(Allow),
    /// No place that is known.
    Unknown,
}

impl Route {
    /// Where a request of this method and target goes.
    pub fn new(method: Method, target: &[u8]) -> Route
        ensures { result ≡ route_of method target.now }
    {
        asked_for(method, place(path(target)))
    }
}

/// What stands in a target before a question mark.
fn path(target: &[u8]) -> &[u8]
    ensures { result.now ≡ path_of target.now }
{
    for (at, byte) in target.iter().enumerate() {
        if *byte == b'?' {
            return &target[..at];
        }
    }
    target
}

/// A place that is asked for by a method.
fn asked_for(method: Method, place: Route) -> Route
    ensures { result ≡ asked_for method place }
{
    match place {
        Route::Commands | Route::Janitor => by_method(Allow::Post, method, place),
        Route::Account(_)
        | Route::Invoice(_, _)
        | Route::Payment(_, _)
        | Route::Subscription(_, _) => { by_method(Allow::Get, method, place) }
        Route::NotAllowed(_) | Route::Unknown => place,
    }
}

/// A place by its one method; by another it is known which one is allowed.
fn by_method(allow: Allow, method: Method, place: Route) -> Route
    ensures { result ≡ by_method allow method place }
{
    match (allow, method) {
        (Allow::Get, Method::Get) | (Allow::Post, Method::Post) => place,
        _ => Route::NotAllowed(allow),
    }
}

/// Where a path leads.
fn place(path: &[u8]) -> Route
    ensures { result ≡ place_of path.now }
{
    match first_piece(path, b'/') {
        ([], Some(words)) => words_place(words),
        _ => Route::Unknown,
    }
}

/// Where the words behind the first slash lead.
fn words_place(words: &[u8]) -> Route
    ensures { result ≡ of_words (pieces slash words.now) }
{
    let (word, rest) = first_piece(words, b'/');
    let Some(rest) = rest else {
        return word_place(word);
    };
    if word == b"accounts".as_slice() {
        account_place(rest)
    } else {
        Route::Unknown
    }
}

/// Where the only word of a path leads.
fn word_place(word: &[u8]) -> Route
    ensures { result ≡ of_word word.now }
{
    if word == b"commands".as_slice() {
        Route::Commands
    } else if word == b"janitor".as_slice() {
        Route::Janitor
    } else {
        Route::Unknown
    }
}

/// Where the words behind 'accounts' lead.
fn account_place(words: &[u8]) -> Route
    ensures { result ≡ of_accounts (pieces slash words.now) }
{
    let (word, rest) = first_piece(words, b'/');
    let Some(account) = Name::new(word) else {
        return Route::Unknown;
    };
    match rest {
        None => Route::Account(account),
        Some(rest) => items_place(account, rest),
    }
}

/// Where the words behind the name of an account lead.
fn items_place(account: Name, words: &[u8]) -> Route
    ensures { result ≡ of_account account (pieces slash words.now) }
{
    let (kind, rest) = first_piece(words, b'/');
    let Some(rest) = rest else {
        return Route::Unknown;
    };
    let (item, more) = first_piece(rest, b'/');
    match more {
        None => item_place(account, kind, item),
        Some(_) => Route::Unknown,
    }
}

/// What is asked of an account.
fn item_place(account: Name, kind: &[u8], item: &[u8]) -> Route
    ensures { result ≡ item_of account kind.now item.now }
{
    if kind == b"invoices".as_slice() {
        return invoice_place(account, item);
    }
    let Some(name) = Name::new(item) else {
        return Route::Unknown;
    };
    if kind == b"payments".as_slice() {
        Route::Payment(account, name)
    } else if kind == b"subscriptions".as_slice() {
        Route::Subscription(account, name)
    } else {
        Route::Unknown
    }
}

/// An invoice of an account.
fn invoice_place(account: Name, item: &[u8]) -> Route
    ensures { result
        ≡ (if is_invoice_number item.now then Invoice account (number_of item.now) else Unknown) }
{
    match number(item, 1 << 32) {
        Some(found) if item[0] != b'0' && found < 1 << 32 => Route::Invoice(account, found as u32),
        _ => Route::Unknown,
    }
}
