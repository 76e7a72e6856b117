//! The list of eleven as requests over HTTP, and the responses to them.
use std::alloc::{AllocError, Global};

/// A request of the list and its response.
#[derive(Clone, Copy)]
struct Post {
    team: &'static str,
    target: &'static str,
    body: &'static str,
    status: &'static str,
    answer: &'static str,
}

const POSTS: [Post; 11] = [
    Post {
        team: "office",
        target: "/do/open_net",
        body: "{\"net\":\"truck\",\"kind\":\"can\",\"reviews\":0}",
        status: "200 OK",
        answer: "{\"done\":true}",
    },
    Post {
        team: "office",
        target: "/do/grant",
        body: "{\"net\":\"truck\",\"team\":\"engine\",\"form\":\"std\",\"first\":256,\"last\":258}",
        status: "200 OK",
        answer: "{\"done\":true}",
    },
    Post {
        team: "engine",
        target: "/do/take_ident",
        body: "{\"net\":\"truck\",\"form\":\"std\",\"name\":\"E1\",\"length\":8}",
        status: "200 OK",
        answer: "{\"number\":256}",
    },
    Post {
        team: "engine",
        target: "/do/take_ident",
        body: "{\"net\":\"truck\",\"form\":\"std\",\"name\":\"E2\",\"length\":8}",
        status: "200 OK",
        answer: "{\"number\":257}",
    },
    Post {
        team: "engine",
        target: "/do/retire",
        body: "{\"net\":\"truck\",\"message\":\"E1\"}",
        status: "200 OK",
        answer: "{\"done\":true}",
    },
    Post {
        team: "engine",
        target: "/import/truck",
        body: "BO_ 256 A: 8 Vector__XXX\nBO_ 257 B: 8 Vector__XXX\nBO_ 258 C: 8 Vector__XXX\n",
        status: "409 Conflict",
        answer: "{\"name\":\"IdentTaken\",\"refused\":51}",
    },
    Post {
        team: "engine",
        target: "/do/take_ident",
        body: "{\"net\":\"truck\",\"form\":\"std\",\"name\":\"E3\",\"length\":8}",
        status: "200 OK",
        answer: "{\"number\":256}",
    },
    Post {
        team: "engine",
        target: "/do/submit",
        body: "{\"net\":\"truck\"}",
        status: "200 OK",
        answer: "{\"done\":true}",
    },
    Post {
        team: "office",
        target: "/do/release",
        body: "{\"net\":\"truck\"}",
        status: "200 OK",
        answer: "{\"release\":1}",
    },
    Post {
        team: "engine",
        target: "/do/retire",
        body: "{\"net\":\"truck\",\"message\":\"E2\"}",
        status: "200 OK",
        answer: "{\"done\":true}",
    },
    Post {
        team: "engine",
        target: "/do/take_ident",
        body: "{\"net\":\"truck\",\"form\":\"std\",\"name\":\"E4\",\"length\":8}",
        status: "200 OK",
        answer: "{\"number\":258}",
    },
];

/// The bytes of the request of this number, from 0. Those of a request that isn't there are none.
pub(crate) fn request(alloc: Global, number: usize) -> Result<Vec<u8>, AllocError> {
    let Some(
        Post {
            team,
            target,
            body,
            ..
        },
    ) = POSTS.get(number)
    else {
        return Ok(Vec::new(alloc));
    };
    let key = number.saturating_add(1);
    let length = body.len();
    let text = format!(in alloc;
        "POST {target} HTTP/1.1\r\nTeam: {team}\r\nRequest-Key: c{key}\r\nContent-Length: {length}\r\n\r\n{body}"
    )?;
    Ok(text.into_bytes())
}

/// The bytes of its response.
pub(crate) fn response(alloc: Global, number: usize) -> Result<Vec<u8>, AllocError> {
    let Some(Post { status, answer, .. }) = POSTS.get(number) else {
        return Ok(Vec::new(alloc));
    };
    let length = answer.len();
    let head = format!(in alloc;
        "HTTP/1.1 {status}\r\nContent-Type: application/json\r\nContent-Length: {length}\r\nConnection: close\r\n\r\n"
    )?;
    let mut bytes = head.into_bytes();
    bytes.extend_from_slice(answer.as_bytes())?;
    Ok(bytes)
}
