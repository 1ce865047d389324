//! Parses the bodies of packets.

ghost use Rattle.std.specs.Prelude.{◌≡◌, IfOk, option_map};
ghost use Rattle.rv_gdb_protocol.specs.Numbers.{parse_bytes};
ghost use Rattle.rv_gdb_protocol.specs.Packets.{request_with_bytes, command, request_of};
ghost use Rattle.rv_gdb_protocol.specs.Requests.{open_file, path_to_open, data_if_complete, write_data, write_digits, memory_write_or_refusal, write_registers};

use crate::arguments::{all_registers_write, memory_write, parse_range};
use crate::escapes::push_data;
use crate::number::{delimiter_index, parse_bytes, parse_two_numbers, text_after};
use crate::packets::request_without_bytes;
use crate::request::{Range, Refusal, Request};
use rv_base::Bytes;
use std::alloc::{AllocError, Global};

/// Returns the request that the body of a packet makes. For a malformed or unknown packet, it is a refusal, which determines the reply.
#[tactic(auto, unfolding(crate::specs::Packets::request_of))]
pub fn parse_request(alloc: Global, body: &[u8]) -> Result<Request, AllocError>
    ensures { IfOk result (λ request. request ≡ request_of body.now) }
{
    if let Some(request) = request_without_bytes(body) {
        return Ok(request);
    }
    match request_with_bytes(alloc, body)? {
        Some(request) => Ok(request),
        None => Ok(Request::Refused(Refusal::Unknown)),
    }
}

// Returns the request of a packet whose arguments contain data bytes, or `None` for any other packet.
#[tactic(auto, unfolding(crate::specs::Packets::request_with_bytes))]
fn request_with_bytes(alloc: Global, body: &[u8]) -> Result<Option<Request>, AllocError>
    ensures { IfOk result (λ request. request ≡ request_with_bytes body.now) }
{
    if let Some(args) = text_after(b"G", body) {
        return Ok(Some(write_registers(alloc, args)?));
    }
    if let Some(args) = text_after(b"M", body) {
        return Ok(Some(write_digits(alloc, args)?));
    }
    if let Some(args) = text_after(b"X", body) {
        return Ok(Some(write_data(alloc, args)?));
    }
    if let Some(args) = text_after(b"vFile:open:", body) {
        return Ok(Some(open_file(alloc, args)?));
    }
    if let Some(args) = text_after(b"qRcmd,", body) {
        return Ok(Some(command(alloc, args)?));
    }
    Ok(None)
}

// Returns the request to write all registers, from 33 values of four bytes, or a refusal for other arguments.
#[tactic(auto, unfolding(crate::specs::Requests::write_registers))]
fn write_registers(alloc: Global, args: &[u8]) -> Result<Request, AllocError>
    ensures { IfOk result (λ request. request ≡ write_registers args.now) }
{
    match parse_bytes(alloc, args)? {
        Some(bytes) => {
            Ok(all_registers_write(bytes).unwrap_or(Request::Refused(Refusal::Malformed)))
        }
        None => Ok(Request::Refused(Refusal::Malformed)),
    }
}

// Returns the request to write memory, from the arguments `ADDRESS,COUNT:` and bytes in hexadecimal digits, or a refusal for other
// arguments.
#[tactic(auto, unfolding(crate::specs::Requests::write_digits))]
fn write_digits(alloc: Global, args: &[u8]) -> Result<Request, AllocError>
    ensures { IfOk result (λ request. request ≡ write_digits args.now) }
{
    let Some(index) = delimiter_index(b':', args) else {
        return Ok(Request::Refused(Refusal::Malformed));
    };
    match parse_range(&args[..index]) {
        Some(range) => {
            let bytes = parse_bytes(alloc, &args[index + 1..])?;
            Ok(memory_write_or_refusal(range, bytes))
        }
        None => Ok(Request::Refused(Refusal::Malformed)),
    }
}

// Returns the request to write memory, from the arguments `ADDRESS,COUNT:` and bytes as data with escapes, or a refusal for other
// arguments.
#[tactic(auto, unfolding(crate::specs::Requests::write_data))]
fn write_data(alloc: Global, args: &[u8]) -> Result<Request, AllocError>
    ensures { IfOk result (λ request. request ≡ write_data args.now) }
{
    let Some(index) = delimiter_index(b':', args) else {
        return Ok(Request::Refused(Refusal::Malformed));
    };
    match parse_range(&args[..index]) {
        Some(range) => {
            let bytes = data_if_complete(alloc, &args[index + 1..])?;
            Ok(memory_write_or_refusal(range, bytes))
        }
        None => Ok(Request::Refused(Refusal::Malformed)),
    }
}

// Returns the request to write these bytes to a range, or a refusal if there are none or their number is not the range's length.
fn memory_write_or_refusal(range: Range, bytes: Option<Vec<u8>>) -> Request
    ensures { result ≡ memory_write_or_refusal range (option_map (λ bytes. bytes.items) bytes) }
{
    match bytes {
        Some(bytes) => {
            memory_write(range, bytes).unwrap_or(Request::Refused(Refusal::Malformed))
        }
        None => Request::Refused(Refusal::Malformed),
    }
}

// Returns the data that a text with escapes represents, or `None` if the text ends with an escape that lacks its byte.
fn data_if_complete(alloc: Global, text: &[u8]) -> Result<Option<Vec<u8>>, AllocError>
    ensures { IfOk result (λ bytes. option_map (λ bytes. bytes.items) bytes ≡ data_if_complete text.now) }
{
    let mut bytes = Vec::new(alloc);
    if push_data(&mut bytes, text)? {
        Ok(Some(bytes))
    } else {
        Ok(None)
    }
}

// Returns the request to open a file, from the arguments `PATH,FLAGS,MODE` with the path in hexadecimal digits, or a refusal for other
// arguments.
fn open_file(alloc: Global, args: &[u8]) -> Result<Request, AllocError>
    ensures { IfOk result (λ request. request ≡ open_file args.now) }
{
    match path_to_open(alloc, args)? {
        Some(path) => Ok(Request::OpenFile(Bytes::new(path))),
        None => Ok(Request::Refused(Refusal::OtherFile)),
    }
}

// Returns the path of the file to open, or `None` if the arguments are malformed or the flags are not 0, the flags for reading.
#[tactic(auto, unfolding(crate::specs::Requests::path_to_open))]
fn path_to_open(alloc: Global, args: &[u8]) -> Result<Option<Vec<u8>>, AllocError>
    ensures { IfOk result (λ path. option_map (λ bytes. bytes.items) path ≡ path_to_open args.now) }
{
    let Some(index) = delimiter_index(b',', args) else {
        return Ok(None);
    };
    match parse_two_numbers(b',', &args[index + 1..]) {
        Some((flags, _)) if flags == 0 => parse_bytes(alloc, &args[..index]),
        _ => Ok(None),
    }
}

// Returns the request to execute a `monitor` command, which is given in hexadecimal digits, or a refusal for other arguments.
#[tactic(auto, unfolding(crate::specs::Packets::command))]
fn command(alloc: Global, args: &[u8]) -> Result<Request, AllocError>
    ensures { IfOk result (λ request. request ≡ command args.now) }
{
    match parse_bytes(alloc, args)? {
        Some(text) => Ok(Request::Command(Bytes::new(text))),
        None => Ok(Request::Refused(Refusal::Failed)),
    }
}
