//! What is said on a link that tests of links and of the program share.

/// A day is asked for, twice; another day under its key; a path that is no route; a method that is not the
/// route's.
pub(crate) const EXCHANGE: &str =
    "POST /v1/commands HTTP/1.1\r\nHost: a\r\nContent-Length: 42\r\n\r\n\
    {\"key\":\"k1\",\"do\":\"day\",\"day\":\"2024-02-01\"}\
    POST /v1/commands HTTP/1.1\r\nHost: a\r\nContent-Length: 42\r\n\r\n\
    {\"key\":\"k1\",\"do\":\"day\",\"day\":\"2024-02-01\"}\
    POST /v1/commands HTTP/1.1\r\nHost: a\r\nContent-Length: 42\r\n\r\n\
    {\"key\":\"k1\",\"do\":\"day\",\"day\":\"2024-02-02\"}\
    GET /v1/nowhere HTTP/1.1\r\n\r\n\
    GET /v1/commands HTTP/1.1\r\n\r\n";

/// What is said to it.
pub(crate) const SAID: &str =
    "HTTP/1.1 200 OK\r\nContent-Length: 35\r\nContent-Type: application/json\r\n\r\n\
    {\"code\":0,\"number\":1,\"text\":\"ok 1\"}\
    HTTP/1.1 200 OK\r\nContent-Length: 35\r\nContent-Type: application/json\r\n\r\n\
    {\"code\":0,\"number\":1,\"text\":\"ok 1\"}\
    HTTP/1.1 409 Conflict\r\nContent-Length: 36\r\nContent-Type: application/json\r\n\r\n\
    {\"code\":1,\"text\":\"no 1 KeyReused 1\"}\
    HTTP/1.1 404 Not Found\r\nContent-Length: 0\r\n\r\n\
    HTTP/1.1 405 Method Not Allowed\r\nAllow: POST\r\nContent-Length: 0\r\n\r\n";

/// A day is asked for, and what is said to it.
pub const DAY: &str = "POST /v1/commands HTTP/1.1\r\nHost: a\r\nContent-Length: 42\r\n\r\n\
    {\"key\":\"k1\",\"do\":\"day\",\"day\":\"2024-02-01\"}";

pub const DAY_SAID: &str =
    "HTTP/1.1 200 OK\r\nContent-Length: 35\r\nContent-Type: application/json\r\n\r\n\
    {\"code\":0,\"number\":1,\"text\":\"ok 1\"}";
