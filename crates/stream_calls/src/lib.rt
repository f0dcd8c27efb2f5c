// The splitter over the C boundary.
#![tactic(auto)]

ghost use Rattle.std.specs.Prelude.{◌≡◌};
ghost use Rattle.stream.specs.Machine.{start_of};
ghost use Rattle.stream.specs.Numbers.{state_of, start_answer_of, Splits, finish_answer_of};

use stream::{FeedAnswer, FinishAnswer, StartAnswer, StreamState};

// The state at the start of a stream, or at its restart: kind 0 is counted, 1 lines.
pub fn khamdoriem_stream_start(kind: u32) -> StartAnswer
    ensures { result ≡ start_answer_of (start_of kind) }
{
    stream::start_numbers(kind)
}

// Bytes of a stream, up to the end of a frame or to a refusal; what is held of a frame is at the front of `buffer`.
pub fn khamdoriem_stream_feed(state: StreamState, bytes: &[u8], buffer: &mut [u8]) -> FeedAnswer
    ensures { Splits state bytes.now buffer.old result buffer.new }
{
    stream::feed_numbers(state, bytes, buffer)
}

// The end of a stream: the content bytes of an unfinished frame.
pub fn khamdoriem_stream_finish(state: StreamState) -> FinishAnswer
    ensures { result ≡ finish_answer_of (state_of state) }
{
    stream::finish_numbers(state)
}
