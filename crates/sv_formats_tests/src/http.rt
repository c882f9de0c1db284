//! The tests of `sv_http`: streams of links with what they ask and what is held of them, replies with their texts, the replies of
//! streams and the texts of requests.

mod held;
mod large;
mod replies;
mod tests;
