//! Transfers that ended, from scripted links.
use mx_link::{ScriptLink, ScriptRead};
use mx_request::Request;
use mx_text::Fetched;
use mx_transfer_core::{Polled, TransferCore};
use mx_types::{Code, Method, Settings};
use std::alloc::Global;
use std::io;
use std::io::{Error, ErrorKind};

/// Hands over the link, where one is wanted.
fn attach(transfer: &mut TransferCore<ScriptLink>, link: ScriptLink) {
    if transfer.wants().is_some() {
        transfer.attach(link, false);
    }
}

/// The end that one poll gives; none where the transfer has ended or waits.
fn poll(alloc: Global, transfer: &mut TransferCore<ScriptLink>) -> io::Result<Fetched> {
    if transfer.spent() {
        return Err(Error::from(ErrorKind::BrokenPipe));
    }
    match transfer.poll() {
        Polled::Ended(ended) => Ok(Fetched::of(alloc, ended)),
        Polled::Waits => Err(Error::from(ErrorKind::WouldBlock)),
        Polled::Asks => Err(Error::from(ErrorKind::WouldBlock)),
    }
}

/// A GET whose link gives the response and then ends.
fn start(alloc: Global, response: &[u8]) -> io::Result<TransferCore<ScriptLink>> {
    let Ok(link) = ScriptLink::new(alloc, &[ScriptRead::Bytes(response)], &[]) else {
        return Err(Error::from(ErrorKind::OutOfMemory));
    };
    let built = Request::build(
        alloc,
        Method::Get,
        "http://127.0.0.1:8080/",
        Settings::new(alloc),
    );
    let Ok(request) = built else {
        return Err(Error::from(ErrorKind::InvalidInput));
    };
    let mut transfer = TransferCore::new(alloc, request);
    attach(&mut transfer, link);
    Ok(transfer)
}

/// The end of such a GET.
fn fetch(alloc: Global, response: &[u8]) -> io::Result<Fetched> {
    let mut transfer = start(alloc, response)?;
    let end = poll(alloc, &mut transfer);
    drop(transfer);
    end
}

/// The end of a GET: a link gives this response and then ends, or the GET is refused with this code.
#[derive(Clone, Copy)]
pub(crate) enum Planned {
    Response(&'static [u8]),
    Refused(Code),
}

/// The end of a GET.
fn end_of(alloc: Global, planned: Planned) -> io::Result<Fetched> {
    match planned {
        Planned::Response(response) => fetch(alloc, response),
        Planned::Refused(code) => Ok(Fetched::Refused(code)),
    }
}

/// Adds the end of each GET.
pub(crate) fn fetch_all(alloc: Global, all: &[Planned], ends: &mut Vec<Fetched>) -> io::Result<()> {
    for planned in all {
        let end = end_of(alloc, *planned)?;
        ends.push(end)?;
    }
    Ok(())
}
