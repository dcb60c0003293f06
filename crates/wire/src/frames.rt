//! Frames, each a body after its length.

ghost use Rattle.layout.specs.declared.error.ReadError.TheVariants as read_error;
ghost use Rattle.std.specs.Prelude.{◌≢◌, IfErr, ◌≡◌, ◌<◌, List, ℕ, ◌∷◌, Ok, IfOk, Some, true, length, option_map};
ghost use Rattle.layout.specs.Format.{Gives, IsBytes, ReadsAs, whole};
ghost use Rattle.wire.specs.Frame.{frame, request, reply_body, request_of, may_carry, reply_of};

use crate::kinds::{RequestKind, Status};
use layout::{Memory, ReadError, Reader, Writer};
use std::alloc::Allocator;

/// The most bytes that a body has.
pub const BODY_LIMIT: u32 = 2_097_152;

fn framed<A: Allocator>(alloc: A, head: u8, payload: &[u8]) -> Result<Vec<u8, A>, Memory>
    requires { length payload.now < BODY_LIMIT }
    ensures { IfOk result (λ bytes. bytes.items ≡ frame.spell (head ∷ payload.now)) }
{
    let mut writer = Writer::new(alloc);
    writer.u32(payload.len() as u32 + 1)?;
    writer.bytes(&[head])?;
    writer.bytes(payload)?;
    Ok(writer.finish())
}

/// The frame of a request.
#[tactic(auto, using(crate::specs::FrameLaws::request_again))]
pub fn request_frame<A: Allocator>(
    alloc: A,
    kind: RequestKind,
    payload: &[u8],
) -> Result<Vec<u8, A>, Memory>
    requires { length payload.now < BODY_LIMIT }
    ensures frame { IfOk result (λ bytes. bytes.items ≡ frame.spell (request kind payload.now)) }
    // What is framed is read back.
    ensures body { IfOk result (λ bytes. whole frame bytes.items ≡ Ok (request kind payload.now)) }
    ensures again { request_of (request kind payload.now) ≡ Some (kind, payload.now) }
{
    framed(alloc, kind.number(), payload)
}

/// The frame of a reply.
#[tactic(auto, using(crate::specs::FrameLaws::reply_again))]
pub fn reply_frame<A: Allocator>(
    alloc: A,
    status: Status,
    payload: &[u8],
) -> Result<Vec<u8, A>, Memory>
    requires small { length payload.now < BODY_LIMIT }
    // Only status 0 has a payload.
    requires carried { may_carry status payload.now ≡ true }
    ensures frame { IfOk result (λ bytes. bytes.items ≡ frame.spell (reply_body status payload.now)) }
    // What is framed is read back.
    ensures body { IfOk result (λ bytes. whole frame bytes.items ≡ Ok (reply_body status payload.now)) }
    ensures again { reply_of (reply_body status payload.now) ≡ Some (status, payload.now) }
{
    framed(alloc, status.number(), payload)
}

/// The body of one whole frame, with the first fault from the left.
pub fn body_of(bytes: &[u8]) -> Result<&[u8], ReadError>
    // What is read is spelled so.
    ensures found { IfOk result (λ body. frame.Fits body.now × (bytes.now ≡ frame.spell body.now)) }
    // What is spelled so is read.
    ensures only { (body : List ℕ) → frame.Fits body → bytes.now ≡ frame.spell body
        → Gives (λ x. x.now) result (Ok body) }
    // Which fault it is.
    ensures exact { Gives (λ x. x.now) result (whole frame bytes.now) }
    ensures no_memory { IfErr result (λ e. e ≢ read_error.Memory) }
{
    whole_body(bytes)
}

/// The body of the frame that a text begins with. After an error the reader may have read its length.
pub(crate) fn first_body<'a>(reader: &mut Reader<'a>) -> Result<&'a [u8], ReadError>
    ensures reads { ReadsAs (λ x. x.now) result reader.new (frame.read reader.old) }
    ensures bytes { IsBytes reader.old }
    ensures no_memory { IfErr result (λ e. e ≢ read_error.Memory) }
{
    let size = reader.u32_in(1, BODY_LIMIT)?;
    reader.bytes(size as usize)
}

fn whole_body(bytes: &[u8]) -> Result<&[u8], ReadError>
    ensures gives { Gives (λ x. x.now) result (whole frame bytes.now) }
    ensures no_memory { IfErr result (λ e. e ≢ read_error.Memory) }
{
    let mut reader = Reader::new(bytes);
    let body = first_body(&mut reader)?;
    if !reader.is_empty() {
        return Err(ReadError::Trailing);
    }
    Ok(body)
}

/// The kind and the payload of a request's body, if its kind is known.
pub fn request_of(body: &[u8]) -> Option<(RequestKind, &[u8])>
    ensures { option_map (λ x. (x.0, x.1.now)) result ≡ request_of body.now }
{
    let (first, payload) = body.split_first()?;
    let kind = RequestKind::from_number(*first)?;
    Some((kind, payload))
}

/// The status and the payload of a reply's body, if its status is known and has no payload where it isn't 0.
pub fn reply_of(body: &[u8]) -> Option<(Status, &[u8])>
    ensures { option_map (λ x. (x.0, x.1.now)) result ≡ reply_of body.now }
{
    let (first, payload) = body.split_first()?;
    let status = Status::from_number(*first)?;
    if status.number() == 0 || payload.is_empty() {
        Some((status, payload))
    } else {
        None
    }
}
