//! Requests and the answers to them, in order.

/// A request, and the answer to it.
pub(crate) type Row = (&'static [u8], &'static [u8]);

/// Two values that don't know of each other, as text and in parts, one alone, and a delete that knows of the first.
pub(crate) const HTTP_SIBLINGS: [Row; 9] = [
    (
        b"GET /buckets/b/keys/k HTTP/1.1\r\nHost: h\r\n\r\n",
        b"HTTP/1.1 404 Not Found\r\nContent-Type: text/plain\r\nContent-Length: 10\r\nX-Content-Type-Options: nosniff\r\nServer: dvvstore\r\nVary: Accept\r\n\r\nnot found\n",
    ),
    (
        b"PUT /buckets/b/keys/k?at=0 HTTP/1.1\r\nHost: h\r\nContent-Type: text/plain\r\nContent-Length: 1\r\n\r\na",
        b"HTTP/1.1 204 No Content\r\nX-Riak-Tag: 0-1\r\nX-Content-Type-Options: nosniff\r\nServer: dvvstore\r\n\r\n",
    ),
    (
        b"PUT /buckets/b/keys/k?at=1 HTTP/1.1\r\nHost: h\r\nContent-Type: text/plain\r\nContent-Length: 1\r\n\r\nb",
        b"HTTP/1.1 204 No Content\r\nX-Riak-Tag: 1-1\r\nX-Content-Type-Options: nosniff\r\nServer: dvvstore\r\n\r\n",
    ),
    (
        b"GET /buckets/b/keys/k HTTP/1.1\r\nHost: h\r\n\r\n",
        b"HTTP/1.1 300 Multiple Choices\r\nContent-Type: text/plain\r\nX-Riak-Vclock: AgACAAAAAAAAAAAAAAEBAAAAAAAAAAAAAQ==\r\nContent-Length: 18\r\nX-Content-Type-Options: nosniff\r\nServer: dvvstore\r\nETag: \"AgACAAAAAAAAAAAAAAEBAAAAAAAAAAAAAQ==\"\r\nVary: Accept\r\n\r\nSiblings:\n0-1\n1-1\n",
    ),
    (
        b"GET /buckets/b/keys/k HTTP/1.1\r\nHost: h\r\nAccept: multipart/mixed\r\n\r\n",
        b"HTTP/1.1 300 Multiple Choices\r\nContent-Type: multipart/mixed; boundary=s0\r\nX-Riak-Vclock: AgACAAAAAAAAAAAAAAEBAAAAAAAAAAAAAQ==\r\nContent-Length: 118\r\nX-Content-Type-Options: nosniff\r\nServer: dvvstore\r\nETag: \"AgACAAAAAAAAAAAAAAEBAAAAAAAAAAAAAQ==-parts\"\r\nVary: Accept\r\n\r\n\r\n--s0\r\nContent-Type: text/plain\r\nX-Riak-Tag: 0-1\r\n\r\na\r\n--s0\r\nContent-Type: text/plain\r\nX-Riak-Tag: 1-1\r\n\r\nb\r\n--s0--\r\n",
    ),
    (
        b"GET /buckets/b/keys/k?vtag=1-1 HTTP/1.1\r\nHost: h\r\n\r\n",
        b"HTTP/1.1 200 OK\r\nContent-Type: text/plain\r\nX-Riak-Vclock: AgACAAAAAAAAAAAAAAEBAAAAAAAAAAAAAQ==\r\nContent-Length: 1\r\nX-Content-Type-Options: nosniff\r\nServer: dvvstore\r\nETag: \"1-1\"\r\nVary: Accept\r\n\r\nb",
    ),
    (
        b"PUT /buckets/b/keys/k HTTP/1.1\r\nHost: h\r\nX-Riak-Vclock: AQABAAAAAQAAAAAAAAPo\r\nContent-Length: 1\r\n\r\nx",
        b"HTTP/1.1 412 Precondition Failed\r\nContent-Type: text/plain\r\nContent-Length: 3\r\nX-Content-Type-Options: nosniff\r\nServer: dvvstore\r\n\r\nP1\n",
    ),
    (
        b"DELETE /buckets/b/keys/k?at=0 HTTP/1.1\r\nHost: h\r\nX-Riak-Vclock: AgABAAAAAAAAAAAAAAE=\r\n\r\n",
        b"HTTP/1.1 204 No Content\r\nX-Riak-Tag: 0-2\r\nX-Content-Type-Options: nosniff\r\nServer: dvvstore\r\n\r\n",
    ),
    (
        b"GET /buckets/b/keys/k HTTP/1.1\r\nHost: h\r\n\r\n",
        b"HTTP/1.1 300 Multiple Choices\r\nContent-Type: text/plain\r\nX-Riak-Vclock: AgACAAAAAAAAAAAAAAIBAAAAAAAAAAAAAQ==\r\nContent-Length: 18\r\nX-Content-Type-Options: nosniff\r\nServer: dvvstore\r\nETag: \"AgACAAAAAAAAAAAAAAIBAAAAAAAAAAAAAQ==\"\r\nVary: Accept\r\n\r\nSiblings:\n0-2\n1-1\n",
    ),
];

/// Properties and hooks, and what the store refuses.
pub(crate) const HOOKS: [Row; 7] = [
    (
        b"GET /buckets/b/props HTTP/1.1\r\nHost: h\r\n\r\n",
        b"HTTP/1.1 200 OK\r\nContent-Type: application/json\r\nContent-Length: 133\r\nX-Content-Type-Options: nosniff\r\nServer: dvvstore\r\n\r\n{\"props\":{\"allow_mult\":true,\"n_val\":3,\"precommit\":null,\"resolver\":null,\"name\":\"b\",\"last_write_wins\":false,\"r\":\"quorum\",\"w\":\"quorum\"}}",
    ),
    (
        b"PUT /hooks/no HTTP/1.1\r\nHost: h\r\nContent-Length: 32\r\n\r\nRBPF\x01\x01\x00\x00\x80\x00\x00\x00\x00\x00\x00\x00\xb7\x00\x00\x00\x01\x01\x00\x00\x95\x00\x00\x00\x00\x00\x00\x00",
        b"HTTP/1.1 204 No Content\r\nX-Content-Type-Options: nosniff\r\nServer: dvvstore\r\n\r\n",
    ),
    (
        b"PUT /buckets/b/props HTTP/1.1\r\nHost: h\r\nContent-Length: 28\r\n\r\n{\"props\":{\"precommit\":\"no\"}}",
        b"HTTP/1.1 204 No Content\r\nX-Content-Type-Options: nosniff\r\nServer: dvvstore\r\n\r\n",
    ),
    (
        b"PUT /buckets/b/keys/k HTTP/1.1\r\nHost: h\r\nContent-Length: 1\r\n\r\na",
        b"HTTP/1.1 403 Forbidden\r\nContent-Type: text/plain\r\nContent-Length: 5\r\nX-Content-Type-Options: nosniff\r\nServer: dvvstore\r\n\r\nX3 1\n",
    ),
    (
        b"PUT /buckets/b/props HTTP/1.1\r\nHost: h\r\nContent-Length: 27\r\n\r\n{\"props\":{\"resolver\":\"no\"}}",
        b"HTTP/1.1 422 Unprocessable Entity\r\nContent-Type: text/plain\r\nContent-Length: 3\r\nX-Content-Type-Options: nosniff\r\nServer: dvvstore\r\n\r\nG2\n",
    ),
    (
        b"GET /buckets/b/props HTTP/1.1\r\nHost: h\r\n\r\n",
        b"HTTP/1.1 200 OK\r\nContent-Type: application/json\r\nContent-Length: 133\r\nX-Content-Type-Options: nosniff\r\nServer: dvvstore\r\n\r\n{\"props\":{\"allow_mult\":true,\"n_val\":3,\"precommit\":\"no\",\"resolver\":null,\"name\":\"b\",\"last_write_wins\":false,\"r\":\"quorum\",\"w\":\"quorum\"}}",
    ),
    (
        b"DELETE /hooks/none HTTP/1.1\r\nHost: h\r\n\r\n",
        b"HTTP/1.1 404 Not Found\r\nContent-Type: text/plain\r\nContent-Length: 3\r\nX-Content-Type-Options: nosniff\r\nServer: dvvstore\r\n\r\nG1\n",
    ),
];

/// A resolver that takes the first sibling.
pub(crate) const RESOLVERS: [Row; 6] = [
    (
        b"PUT /hooks/take HTTP/1.1\r\nHost: h\r\nContent-Length: 32\r\n\r\nRBPF\x01\x02\x00\x00\x80\x00\x00\x00\x00\x00\x00\x00\xb7\x00\x00\x00\x00\x01\x00\x00\x95\x00\x00\x00\x00\x00\x00\x00",
        b"HTTP/1.1 204 No Content\r\nX-Content-Type-Options: nosniff\r\nServer: dvvstore\r\n\r\n",
    ),
    (
        b"PUT /buckets/c/props HTTP/1.1\r\nHost: h\r\nContent-Length: 29\r\n\r\n{\"props\":{\"resolver\":\"take\"}}",
        b"HTTP/1.1 204 No Content\r\nX-Content-Type-Options: nosniff\r\nServer: dvvstore\r\n\r\n",
    ),
    (
        b"PUT /buckets/c/keys/k?at=0 HTTP/1.1\r\nHost: h\r\nContent-Type: text/plain\r\nContent-Length: 1\r\n\r\na",
        b"HTTP/1.1 204 No Content\r\nX-Riak-Tag: 0-1\r\nX-Content-Type-Options: nosniff\r\nServer: dvvstore\r\n\r\n",
    ),
    (
        b"PUT /buckets/c/keys/k?at=1 HTTP/1.1\r\nHost: h\r\nContent-Type: text/plain\r\nContent-Length: 1\r\n\r\nb",
        b"HTTP/1.1 204 No Content\r\nX-Riak-Tag: 1-1\r\nX-Content-Type-Options: nosniff\r\nServer: dvvstore\r\n\r\n",
    ),
    (
        b"GET /buckets/c/keys/k HTTP/1.1\r\nHost: h\r\n\r\n",
        b"HTTP/1.1 200 OK\r\nContent-Type: text/plain\r\nX-Riak-Vclock: AgACAAAAAAAAAAAAAAIBAAAAAAAAAAAAAQ==\r\nContent-Length: 1\r\nX-Content-Type-Options: nosniff\r\nServer: dvvstore\r\nETag: \"0-2\"\r\nVary: Accept\r\n\r\na",
    ),
    (
        b"DELETE /hooks/take HTTP/1.1\r\nHost: h\r\n\r\n",
        b"HTTP/1.1 204 No Content\r\nX-Content-Type-Options: nosniff\r\nServer: dvvstore\r\n\r\n",
    ),
];
