// Messages and what comes of them; tests/message_vectors.py computes them and says how they read.
/// A message, and after its last bar what comes of it.
pub type Case = &'static [u8];

static PART_0: [Case; 25] = [
    b"GET /v1/secrets HTTP/1.1\r\nX-Project-Id: p1\r\nX-User-Id: u1\r\nX-Roles: creator\r\n\r\n|p1 u1 01000 ListSecrets { query: Text { text: \"\" } }; 0",
    b"POST /v1/secrets HTTP/1.1\r\nX-Project-Id: p1\r\nX-User-Id: u1\r\nX-Roles: creator\r\nContent-Length: 2\r\n\r\n{}|p1 u1 01000 PostSecret { content_type: None }; 2",
    b"PATCH /v1/secrets HTTP/1.1\r\nX-Project-Id: p1\r\nX-User-Id: u1\r\nX-Roles: creator\r\nContent-Length: 2\r\n\r\n{}|405 GET, POST; 2",
    b"HEAD /v1/secrets HTTP/1.1\r\nX-Project-Id: p1\r\nX-User-Id: u1\r\nX-Roles: creator\r\n\r\n|405 GET, POST; 0",
    b"GET /v1/secrets/01234567-89ab-8cde-8000-00000000000f HTTP/1.1\r\nX-Project-Id: p1\r\nX-User-Id: u1\r\nX-Roles: creator\r\n\r\n|p1 u1 01000 GetSecret { id: Some(Id(1512366075203863670774933082043580431)), accept: None }; 0",
    b"POST /v1/secrets/01234567-89ab-8cde-8000-00000000000f HTTP/1.1\r\nX-Project-Id: p1\r\nX-User-Id: u1\r\nX-Roles: creator\r\nContent-Length: 2\r\n\r\n{}|405 GET, PUT, DELETE; 2",
    b"PUT /v1/secrets/01234567-89ab-8cde-8000-00000000000f HTTP/1.1\r\nX-Project-Id: p1\r\nX-User-Id: u1\r\nX-Roles: creator\r\nContent-Length: 2\r\n\r\n{}|p1 u1 01000 PutPayload { id: Some(Id(1512366075203863670774933082043580431)), put: PutShape { content_type: None, content_encoding: None } }; 2",
    b"PATCH /v1/secrets/01234567-89ab-8cde-8000-00000000000f HTTP/1.1\r\nX-Project-Id: p1\r\nX-User-Id: u1\r\nX-Roles: creator\r\nContent-Length: 2\r\n\r\n{}|405 GET, PUT, DELETE; 2",
    b"DELETE /v1/secrets/01234567-89ab-8cde-8000-00000000000f HTTP/1.1\r\nX-Project-Id: p1\r\nX-User-Id: u1\r\nX-Roles: creator\r\n\r\n|p1 u1 01000 DeleteSecret { id: Some(Id(1512366075203863670774933082043580431)) }; 0",
    b"HEAD /v1/secrets/01234567-89ab-8cde-8000-00000000000f HTTP/1.1\r\nX-Project-Id: p1\r\nX-User-Id: u1\r\nX-Roles: creator\r\n\r\n|405 GET, PUT, DELETE; 0",
    b"GET /v1/secrets/01234567-89ab-8cde-8000-00000000000f/payload HTTP/1.1\r\nX-Project-Id: p1\r\nX-User-Id: u1\r\nX-Roles: creator\r\n\r\n|p1 u1 01000 GetPayload { id: Some(Id(1512366075203863670774933082043580431)), accept: None }; 0",
    b"POST /v1/secrets/01234567-89ab-8cde-8000-00000000000f/payload HTTP/1.1\r\nX-Project-Id: p1\r\nX-User-Id: u1\r\nX-Roles: creator\r\nContent-Length: 2\r\n\r\n{}|405 GET; 2",
    b"PATCH /v1/secrets/01234567-89ab-8cde-8000-00000000000f/payload HTTP/1.1\r\nX-Project-Id: p1\r\nX-User-Id: u1\r\nX-Roles: creator\r\nContent-Length: 2\r\n\r\n{}|405 GET; 2",
    b"HEAD /v1/secrets/01234567-89ab-8cde-8000-00000000000f/payload HTTP/1.1\r\nX-Project-Id: p1\r\nX-User-Id: u1\r\nX-Roles: creator\r\n\r\n|405 GET; 0",
    b"GET /v1/secrets/01234567-89ab-8cde-8000-00000000000f/metadata HTTP/1.1\r\nX-Project-Id: p1\r\nX-User-Id: u1\r\nX-Roles: creator\r\n\r\n|p1 u1 01000 GetMetadata { id: Some(Id(1512366075203863670774933082043580431)) }; 0",
    b"POST /v1/secrets/01234567-89ab-8cde-8000-00000000000f/metadata HTTP/1.1\r\nX-Project-Id: p1\r\nX-User-Id: u1\r\nX-Roles: creator\r\nContent-Length: 2\r\n\r\n{}|p1 u1 01000 PostPair { id: Some(Id(1512366075203863670774933082043580431)), content_type: None }; 2",
    b"PUT /v1/secrets/01234567-89ab-8cde-8000-00000000000f/metadata HTTP/1.1\r\nX-Project-Id: p1\r\nX-User-Id: u1\r\nX-Roles: creator\r\nContent-Length: 2\r\n\r\n{}|p1 u1 01000 PutMetadata { id: Some(Id(1512366075203863670774933082043580431)), content_type: None }; 2",
    b"PATCH /v1/secrets/01234567-89ab-8cde-8000-00000000000f/metadata HTTP/1.1\r\nX-Project-Id: p1\r\nX-User-Id: u1\r\nX-Roles: creator\r\nContent-Length: 2\r\n\r\n{}|405 GET, POST, PUT; 2",
    b"HEAD /v1/secrets/01234567-89ab-8cde-8000-00000000000f/metadata HTTP/1.1\r\nX-Project-Id: p1\r\nX-User-Id: u1\r\nX-Roles: creator\r\n\r\n|405 GET, POST, PUT; 0",
    b"GET /v1/secrets/01234567-89ab-8cde-8000-00000000000f/metadata/a.B-1 HTTP/1.1\r\nX-Project-Id: p1\r\nX-User-Id: u1\r\nX-Roles: creator\r\n\r\n|p1 u1 01000 GetPair { id: Some(Id(1512366075203863670774933082043580431)), key: Some(Text { text: \"a.B-1\" }) }; 0",
    b"POST /v1/secrets/01234567-89ab-8cde-8000-00000000000f/metadata/a.B-1 HTTP/1.1\r\nX-Project-Id: p1\r\nX-User-Id: u1\r\nX-Roles: creator\r\nContent-Length: 2\r\n\r\n{}|405 GET, PUT, DELETE; 2",
    b"PUT /v1/secrets/01234567-89ab-8cde-8000-00000000000f/metadata/a.B-1 HTTP/1.1\r\nX-Project-Id: p1\r\nX-User-Id: u1\r\nX-Roles: creator\r\nContent-Length: 2\r\n\r\n{}|p1 u1 01000 PutPair { id: Some(Id(1512366075203863670774933082043580431)), key: Some(Text { text: \"a.B-1\" }), content_type: None }; 2",
    b"PATCH /v1/secrets/01234567-89ab-8cde-8000-00000000000f/metadata/a.B-1 HTTP/1.1\r\nX-Project-Id: p1\r\nX-User-Id: u1\r\nX-Roles: creator\r\nContent-Length: 2\r\n\r\n{}|405 GET, PUT, DELETE; 2",
    b"DELETE /v1/secrets/01234567-89ab-8cde-8000-00000000000f/metadata/a.B-1 HTTP/1.1\r\nX-Project-Id: p1\r\nX-User-Id: u1\r\nX-Roles: creator\r\n\r\n|p1 u1 01000 DeletePair { id: Some(Id(1512366075203863670774933082043580431)), key: Some(Text { text: \"a.B-1\" }) }; 0",
    b"HEAD /v1/secrets/01234567-89ab-8cde-8000-00000000000f/metadata/a.B-1 HTTP/1.1\r\nX-Project-Id: p1\r\nX-User-Id: u1\r\nX-Roles: creator\r\n\r\n|405 GET, PUT, DELETE; 0",
];

fn part_0() -> &'static [Case] {
    &PART_0
}

static PART_1: [Case; 25] = [
    b"GET /v1/secrets/01234567-89ab-8cde-8000-00000000000f/acl HTTP/1.1\r\nX-Project-Id: p1\r\nX-User-Id: u1\r\nX-Roles: creator\r\n\r\n|p1 u1 01000 GetAcl { kind: Secret, id: Some(Id(1512366075203863670774933082043580431)) }; 0",
    b"POST /v1/secrets/01234567-89ab-8cde-8000-00000000000f/acl HTTP/1.1\r\nX-Project-Id: p1\r\nX-User-Id: u1\r\nX-Roles: creator\r\nContent-Length: 2\r\n\r\n{}|405 GET, PUT, PATCH, DELETE; 2",
    b"PUT /v1/secrets/01234567-89ab-8cde-8000-00000000000f/acl HTTP/1.1\r\nX-Project-Id: p1\r\nX-User-Id: u1\r\nX-Roles: creator\r\nContent-Length: 2\r\n\r\n{}|p1 u1 01000 PutAcl { kind: Secret, id: Some(Id(1512366075203863670774933082043580431)), content_type: None }; 2",
    b"PATCH /v1/secrets/01234567-89ab-8cde-8000-00000000000f/acl HTTP/1.1\r\nX-Project-Id: p1\r\nX-User-Id: u1\r\nX-Roles: creator\r\nContent-Length: 2\r\n\r\n{}|p1 u1 01000 PatchAcl { kind: Secret, id: Some(Id(1512366075203863670774933082043580431)), content_type: None }; 2",
    b"DELETE /v1/secrets/01234567-89ab-8cde-8000-00000000000f/acl HTTP/1.1\r\nX-Project-Id: p1\r\nX-User-Id: u1\r\nX-Roles: creator\r\n\r\n|p1 u1 01000 DeleteAcl { kind: Secret, id: Some(Id(1512366075203863670774933082043580431)) }; 0",
    b"HEAD /v1/secrets/01234567-89ab-8cde-8000-00000000000f/acl HTTP/1.1\r\nX-Project-Id: p1\r\nX-User-Id: u1\r\nX-Roles: creator\r\n\r\n|405 GET, PUT, PATCH, DELETE; 0",
    b"GET /v1/containers/01234567-89ab-8cde-8000-00000000000f/acl HTTP/1.1\r\nX-Project-Id: p1\r\nX-User-Id: u1\r\nX-Roles: creator\r\n\r\n|p1 u1 01000 GetAcl { kind: Container, id: Some(Id(1512366075203863670774933082043580431)) }; 0",
    b"POST /v1/containers/01234567-89ab-8cde-8000-00000000000f/acl HTTP/1.1\r\nX-Project-Id: p1\r\nX-User-Id: u1\r\nX-Roles: creator\r\nContent-Length: 2\r\n\r\n{}|405 GET, PUT, PATCH, DELETE; 2",
    b"PUT /v1/containers/01234567-89ab-8cde-8000-00000000000f/acl HTTP/1.1\r\nX-Project-Id: p1\r\nX-User-Id: u1\r\nX-Roles: creator\r\nContent-Length: 2\r\n\r\n{}|p1 u1 01000 PutAcl { kind: Container, id: Some(Id(1512366075203863670774933082043580431)), content_type: None }; 2",
    b"PATCH /v1/containers/01234567-89ab-8cde-8000-00000000000f/acl HTTP/1.1\r\nX-Project-Id: p1\r\nX-User-Id: u1\r\nX-Roles: creator\r\nContent-Length: 2\r\n\r\n{}|p1 u1 01000 PatchAcl { kind: Container, id: Some(Id(1512366075203863670774933082043580431)), content_type: None }; 2",
    b"DELETE /v1/containers/01234567-89ab-8cde-8000-00000000000f/acl HTTP/1.1\r\nX-Project-Id: p1\r\nX-User-Id: u1\r\nX-Roles: creator\r\n\r\n|p1 u1 01000 DeleteAcl { kind: Container, id: Some(Id(1512366075203863670774933082043580431)) }; 0",
    b"HEAD /v1/containers/01234567-89ab-8cde-8000-00000000000f/acl HTTP/1.1\r\nX-Project-Id: p1\r\nX-User-Id: u1\r\nX-Roles: creator\r\n\r\n|405 GET, PUT, PATCH, DELETE; 0",
    b"GET /v1/containers HTTP/1.1\r\nX-Project-Id: p1\r\nX-User-Id: u1\r\nX-Roles: creator\r\n\r\n|p1 u1 01000 ListContainers { query: Text { text: \"\" } }; 0",
    b"POST /v1/containers HTTP/1.1\r\nX-Project-Id: p1\r\nX-User-Id: u1\r\nX-Roles: creator\r\nContent-Length: 2\r\n\r\n{}|p1 u1 01000 PostContainer { content_type: None }; 2",
    b"PATCH /v1/containers HTTP/1.1\r\nX-Project-Id: p1\r\nX-User-Id: u1\r\nX-Roles: creator\r\nContent-Length: 2\r\n\r\n{}|405 GET, POST; 2",
    b"HEAD /v1/containers HTTP/1.1\r\nX-Project-Id: p1\r\nX-User-Id: u1\r\nX-Roles: creator\r\n\r\n|405 GET, POST; 0",
    b"GET /v1/containers/01234567-89ab-8cde-8000-00000000000f HTTP/1.1\r\nX-Project-Id: p1\r\nX-User-Id: u1\r\nX-Roles: creator\r\n\r\n|p1 u1 01000 GetContainer { id: Some(Id(1512366075203863670774933082043580431)) }; 0",
    b"POST /v1/containers/01234567-89ab-8cde-8000-00000000000f HTTP/1.1\r\nX-Project-Id: p1\r\nX-User-Id: u1\r\nX-Roles: creator\r\nContent-Length: 2\r\n\r\n{}|405 GET, DELETE; 2",
    b"PATCH /v1/containers/01234567-89ab-8cde-8000-00000000000f HTTP/1.1\r\nX-Project-Id: p1\r\nX-User-Id: u1\r\nX-Roles: creator\r\nContent-Length: 2\r\n\r\n{}|405 GET, DELETE; 2",
    b"DELETE /v1/containers/01234567-89ab-8cde-8000-00000000000f HTTP/1.1\r\nX-Project-Id: p1\r\nX-User-Id: u1\r\nX-Roles: creator\r\n\r\n|p1 u1 01000 DeleteContainer { id: Some(Id(1512366075203863670774933082043580431)) }; 0",
    b"HEAD /v1/containers/01234567-89ab-8cde-8000-00000000000f HTTP/1.1\r\nX-Project-Id: p1\r\nX-User-Id: u1\r\nX-Roles: creator\r\n\r\n|405 GET, DELETE; 0",
    b"POST /v1/containers/01234567-89ab-8cde-8000-00000000000f/secrets HTTP/1.1\r\nX-Project-Id: p1\r\nX-User-Id: u1\r\nX-Roles: creator\r\nContent-Length: 2\r\n\r\n{}|p1 u1 01000 PostMember { id: Some(Id(1512366075203863670774933082043580431)), content_type: None }; 2",
    b"PATCH /v1/containers/01234567-89ab-8cde-8000-00000000000f/secrets HTTP/1.1\r\nX-Project-Id: p1\r\nX-User-Id: u1\r\nX-Roles: creator\r\nContent-Length: 2\r\n\r\n{}|405 POST, DELETE; 2",
    b"DELETE /v1/containers/01234567-89ab-8cde-8000-00000000000f/secrets HTTP/1.1\r\nX-Project-Id: p1\r\nX-User-Id: u1\r\nX-Roles: creator\r\n\r\n|p1 u1 01000 DeleteMember { id: Some(Id(1512366075203863670774933082043580431)), content_type: None }; 0",
    b"HEAD /v1/containers/01234567-89ab-8cde-8000-00000000000f/secrets HTTP/1.1\r\nX-Project-Id: p1\r\nX-User-Id: u1\r\nX-Roles: creator\r\n\r\n|405 POST, DELETE; 0",
];

fn part_1() -> &'static [Case] {
    &PART_1
}

static PART_2: [Case; 25] = [
    b"GET /v1/containers/01234567-89ab-8cde-8000-00000000000f/consumers HTTP/1.1\r\nX-Project-Id: p1\r\nX-User-Id: u1\r\nX-Roles: creator\r\n\r\n|p1 u1 01000 ListConsumers { id: Some(Id(1512366075203863670774933082043580431)), query: Text { text: \"\" } }; 0",
    b"POST /v1/containers/01234567-89ab-8cde-8000-00000000000f/consumers HTTP/1.1\r\nX-Project-Id: p1\r\nX-User-Id: u1\r\nX-Roles: creator\r\nContent-Length: 2\r\n\r\n{}|p1 u1 01000 PostConsumer { id: Some(Id(1512366075203863670774933082043580431)), content_type: None }; 2",
    b"PATCH /v1/containers/01234567-89ab-8cde-8000-00000000000f/consumers HTTP/1.1\r\nX-Project-Id: p1\r\nX-User-Id: u1\r\nX-Roles: creator\r\nContent-Length: 2\r\n\r\n{}|405 GET, POST, DELETE; 2",
    b"DELETE /v1/containers/01234567-89ab-8cde-8000-00000000000f/consumers HTTP/1.1\r\nX-Project-Id: p1\r\nX-User-Id: u1\r\nX-Roles: creator\r\n\r\n|p1 u1 01000 DeleteConsumer { id: Some(Id(1512366075203863670774933082043580431)), content_type: None }; 0",
    b"HEAD /v1/containers/01234567-89ab-8cde-8000-00000000000f/consumers HTTP/1.1\r\nX-Project-Id: p1\r\nX-User-Id: u1\r\nX-Roles: creator\r\n\r\n|405 GET, POST, DELETE; 0",
    b"GET /v1/orders HTTP/1.1\r\nX-Project-Id: p1\r\nX-User-Id: u1\r\nX-Roles: creator\r\n\r\n|p1 u1 01000 ListOrders { query: Text { text: \"\" } }; 0",
    b"POST /v1/orders HTTP/1.1\r\nX-Project-Id: p1\r\nX-User-Id: u1\r\nX-Roles: creator\r\nContent-Length: 2\r\n\r\n{}|p1 u1 01000 PostOrder { content_type: None }; 2",
    b"PATCH /v1/orders HTTP/1.1\r\nX-Project-Id: p1\r\nX-User-Id: u1\r\nX-Roles: creator\r\nContent-Length: 2\r\n\r\n{}|405 GET, POST; 2",
    b"HEAD /v1/orders HTTP/1.1\r\nX-Project-Id: p1\r\nX-User-Id: u1\r\nX-Roles: creator\r\n\r\n|405 GET, POST; 0",
    b"GET /v1/orders/01234567-89ab-8cde-8000-00000000000f HTTP/1.1\r\nX-Project-Id: p1\r\nX-User-Id: u1\r\nX-Roles: creator\r\n\r\n|p1 u1 01000 GetOrder { id: Some(Id(1512366075203863670774933082043580431)) }; 0",
    b"POST /v1/orders/01234567-89ab-8cde-8000-00000000000f HTTP/1.1\r\nX-Project-Id: p1\r\nX-User-Id: u1\r\nX-Roles: creator\r\nContent-Length: 2\r\n\r\n{}|405 GET, DELETE; 2",
    b"PATCH /v1/orders/01234567-89ab-8cde-8000-00000000000f HTTP/1.1\r\nX-Project-Id: p1\r\nX-User-Id: u1\r\nX-Roles: creator\r\nContent-Length: 2\r\n\r\n{}|405 GET, DELETE; 2",
    b"DELETE /v1/orders/01234567-89ab-8cde-8000-00000000000f HTTP/1.1\r\nX-Project-Id: p1\r\nX-User-Id: u1\r\nX-Roles: creator\r\n\r\n|p1 u1 01000 DeleteOrder { id: Some(Id(1512366075203863670774933082043580431)) }; 0",
    b"HEAD /v1/orders/01234567-89ab-8cde-8000-00000000000f HTTP/1.1\r\nX-Project-Id: p1\r\nX-User-Id: u1\r\nX-Roles: creator\r\n\r\n|405 GET, DELETE; 0",
    b"GET /v1/quotas HTTP/1.1\r\nX-Project-Id: p1\r\nX-User-Id: u1\r\nX-Roles: creator\r\n\r\n|p1 u1 01000 GetQuotas; 0",
    b"POST /v1/quotas HTTP/1.1\r\nX-Project-Id: p1\r\nX-User-Id: u1\r\nX-Roles: creator\r\nContent-Length: 2\r\n\r\n{}|405 GET; 2",
    b"PATCH /v1/quotas HTTP/1.1\r\nX-Project-Id: p1\r\nX-User-Id: u1\r\nX-Roles: creator\r\nContent-Length: 2\r\n\r\n{}|405 GET; 2",
    b"HEAD /v1/quotas HTTP/1.1\r\nX-Project-Id: p1\r\nX-User-Id: u1\r\nX-Roles: creator\r\n\r\n|405 GET; 0",
    b"GET /v1/project-quotas HTTP/1.1\r\nX-Project-Id: p1\r\nX-User-Id: u1\r\nX-Roles: creator\r\n\r\n|p1 u1 01000 ListQuotas { query: Text { text: \"\" } }; 0",
    b"POST /v1/project-quotas HTTP/1.1\r\nX-Project-Id: p1\r\nX-User-Id: u1\r\nX-Roles: creator\r\nContent-Length: 2\r\n\r\n{}|405 GET; 2",
    b"PATCH /v1/project-quotas HTTP/1.1\r\nX-Project-Id: p1\r\nX-User-Id: u1\r\nX-Roles: creator\r\nContent-Length: 2\r\n\r\n{}|405 GET; 2",
    b"HEAD /v1/project-quotas HTTP/1.1\r\nX-Project-Id: p1\r\nX-User-Id: u1\r\nX-Roles: creator\r\n\r\n|405 GET; 0",
    b"GET /v1/project-quotas/p2 HTTP/1.1\r\nX-Project-Id: p1\r\nX-User-Id: u1\r\nX-Roles: creator\r\n\r\n|p1 u1 01000 GetProjectQuotas { project: Some(Name { bytes: [112, 50, 0, 0, 0, 0, 0, 0, 0, 0, 0, 0, 0, 0, 0, 0, 0, 0, 0, 0, 0, 0, 0, 0, 0, 0, 0, 0, 0, 0, 0, 0, 0, 0, 0, 0, 0, 0, 0, 0, 0, 0, 0, 0, 0, 0, 0, 0, 0, 0, 0, 0, 0, 0, 0, 0, 0, 0, 0, 0, 0, 0, 0, 0], len: 2 }) }; 0",
    b"POST /v1/project-quotas/p2 HTTP/1.1\r\nX-Project-Id: p1\r\nX-User-Id: u1\r\nX-Roles: creator\r\nContent-Length: 2\r\n\r\n{}|405 GET, PUT, DELETE; 2",
    b"PUT /v1/project-quotas/p2 HTTP/1.1\r\nX-Project-Id: p1\r\nX-User-Id: u1\r\nX-Roles: creator\r\nContent-Length: 2\r\n\r\n{}|p1 u1 01000 PutProjectQuotas { project: Some(Name { bytes: [112, 50, 0, 0, 0, 0, 0, 0, 0, 0, 0, 0, 0, 0, 0, 0, 0, 0, 0, 0, 0, 0, 0, 0, 0, 0, 0, 0, 0, 0, 0, 0, 0, 0, 0, 0, 0, 0, 0, 0, 0, 0, 0, 0, 0, 0, 0, 0, 0, 0, 0, 0, 0, 0, 0, 0, 0, 0, 0, 0, 0, 0, 0, 0], len: 2 }), content_type: None }; 2",
];

fn part_2() -> &'static [Case] {
    &PART_2
}

static PART_3: [Case; 25] = [
    b"PATCH /v1/project-quotas/p2 HTTP/1.1\r\nX-Project-Id: p1\r\nX-User-Id: u1\r\nX-Roles: creator\r\nContent-Length: 2\r\n\r\n{}|405 GET, PUT, DELETE; 2",
    b"DELETE /v1/project-quotas/p2 HTTP/1.1\r\nX-Project-Id: p1\r\nX-User-Id: u1\r\nX-Roles: creator\r\n\r\n|p1 u1 01000 DeleteProjectQuotas { project: Some(Name { bytes: [112, 50, 0, 0, 0, 0, 0, 0, 0, 0, 0, 0, 0, 0, 0, 0, 0, 0, 0, 0, 0, 0, 0, 0, 0, 0, 0, 0, 0, 0, 0, 0, 0, 0, 0, 0, 0, 0, 0, 0, 0, 0, 0, 0, 0, 0, 0, 0, 0, 0, 0, 0, 0, 0, 0, 0, 0, 0, 0, 0, 0, 0, 0, 0], len: 2 }) }; 0",
    b"HEAD /v1/project-quotas/p2 HTTP/1.1\r\nX-Project-Id: p1\r\nX-User-Id: u1\r\nX-Roles: creator\r\n\r\n|405 GET, PUT, DELETE; 0",
    b"GET /v1/secrets/ HTTP/1.1\r\nX-Project-Id: p1\r\nX-User-Id: u1\r\nX-Roles: creator\r\n\r\n|p1 u1 01000 ListSecrets { query: Text { text: \"\" } }; 0",
    b"GET /v1/secrets// HTTP/1.1\r\nX-Project-Id: p1\r\nX-User-Id: u1\r\nX-Roles: creator\r\n\r\n|404; 0",
    b"GET //v1/secrets HTTP/1.1\r\nX-Project-Id: p1\r\nX-User-Id: u1\r\nX-Roles: creator\r\n\r\n|404; 0",
    b"GET /v1//secrets HTTP/1.1\r\nX-Project-Id: p1\r\nX-User-Id: u1\r\nX-Roles: creator\r\n\r\n|404; 0",
    b"GET /V1/secrets HTTP/1.1\r\nX-Project-Id: p1\r\nX-User-Id: u1\r\nX-Roles: creator\r\n\r\n|404; 0",
    b"GET /v1/Secrets HTTP/1.1\r\nX-Project-Id: p1\r\nX-User-Id: u1\r\nX-Roles: creator\r\n\r\n|404; 0",
    b"GET /v1 HTTP/1.1\r\nX-Project-Id: p1\r\nX-User-Id: u1\r\nX-Roles: creator\r\n\r\n|404; 0",
    b"GET / HTTP/1.1\r\nX-Project-Id: p1\r\nX-User-Id: u1\r\nX-Roles: creator\r\n\r\n|404; 0",
    b"GET * HTTP/1.1\r\nX-Project-Id: p1\r\nX-User-Id: u1\r\nX-Roles: creator\r\n\r\n|404; 0",
    b"GET http://h/v1/secrets HTTP/1.1\r\nX-Project-Id: p1\r\nX-User-Id: u1\r\nX-Roles: creator\r\n\r\n|404; 0",
    b"GET /v1/secrets? HTTP/1.1\r\nX-Project-Id: p1\r\nX-User-Id: u1\r\nX-Roles: creator\r\n\r\n|p1 u1 01000 ListSecrets { query: Text { text: \"\" } }; 0",
    b"GET /v1/secrets?limit=1&offset=%20 HTTP/1.1\r\nX-Project-Id: p1\r\nX-User-Id: u1\r\nX-Roles: creator\r\n\r\n|p1 u1 01000 ListSecrets { query: Text { text: \"limit=1&offset=%20\" } }; 0",
    b"GET /v1/secrets/?a=/ HTTP/1.1\r\nX-Project-Id: p1\r\nX-User-Id: u1\r\nX-Roles: creator\r\n\r\n|p1 u1 01000 ListSecrets { query: Text { text: \"a=/\" } }; 0",
    b"GET /v1/secrets?a?b HTTP/1.1\r\nX-Project-Id: p1\r\nX-User-Id: u1\r\nX-Roles: creator\r\n\r\n|p1 u1 01000 ListSecrets { query: Text { text: \"a?b\" } }; 0",
    b"GET /v1/secrets#a HTTP/1.1\r\nX-Project-Id: p1\r\nX-User-Id: u1\r\nX-Roles: creator\r\n\r\n|404; 0",
    b"GET /v1/%73ecrets HTTP/1.1\r\nX-Project-Id: p1\r\nX-User-Id: u1\r\nX-Roles: creator\r\n\r\n|404; 0",
    b"GET /v1/secrets/01234567-89AB-8CDE-8000-00000000000F HTTP/1.1\r\nX-Project-Id: p1\r\nX-User-Id: u1\r\nX-Roles: creator\r\n\r\n|p1 u1 01000 GetSecret { id: Some(Id(1512366075203863670774933082043580431)), accept: None }; 0",
    b"GET /v1/secrets/01234567-89ab-8cde-8000-00000000000 HTTP/1.1\r\nX-Project-Id: p1\r\nX-User-Id: u1\r\nX-Roles: creator\r\n\r\n|p1 u1 01000 GetSecret { id: None, accept: None }; 0",
    b"GET /v1/secrets/01234567-89ab-8cde-8000-00000000000f0 HTTP/1.1\r\nX-Project-Id: p1\r\nX-User-Id: u1\r\nX-Roles: creator\r\n\r\n|p1 u1 01000 GetSecret { id: None, accept: None }; 0",
    b"GET /v1/secrets/%301234567-89ab-8cde-8000-00000000000f HTTP/1.1\r\nX-Project-Id: p1\r\nX-User-Id: u1\r\nX-Roles: creator\r\n\r\n|p1 u1 01000 GetSecret { id: None, accept: None }; 0",
    b"GET /v1/secrets/x HTTP/1.1\r\nX-Project-Id: p1\r\nX-User-Id: u1\r\nX-Roles: creator\r\n\r\n|p1 u1 01000 GetSecret { id: None, accept: None }; 0",
    b"GET /v1/secrets/01234567-89ab-8cde-8000-00000000000f/ HTTP/1.1\r\nX-Project-Id: p1\r\nX-User-Id: u1\r\nX-Roles: creator\r\n\r\n|p1 u1 01000 GetSecret { id: Some(Id(1512366075203863670774933082043580431)), accept: None }; 0",
];

fn part_3() -> &'static [Case] {
    &PART_3
}

static PART_4: [Case; 25] = [
    b"GET /v1/secrets/01234567-89ab-8cde-8000-00000000000f// HTTP/1.1\r\nX-Project-Id: p1\r\nX-User-Id: u1\r\nX-Roles: creator\r\n\r\n|404; 0",
    b"GET /v1/secrets/x/payload HTTP/1.1\r\nX-Project-Id: p1\r\nX-User-Id: u1\r\nX-Roles: creator\r\n\r\n|p1 u1 01000 GetPayload { id: None, accept: None }; 0",
    b"GET /v1/secrets/x/payload/ HTTP/1.1\r\nX-Project-Id: p1\r\nX-User-Id: u1\r\nX-Roles: creator\r\n\r\n|p1 u1 01000 GetPayload { id: None, accept: None }; 0",
    b"GET /v1/secrets/x/payloads HTTP/1.1\r\nX-Project-Id: p1\r\nX-User-Id: u1\r\nX-Roles: creator\r\n\r\n|404; 0",
    b"GET /v1/secrets/x/metadata/ HTTP/1.1\r\nX-Project-Id: p1\r\nX-User-Id: u1\r\nX-Roles: creator\r\n\r\n|p1 u1 01000 GetMetadata { id: None }; 0",
    b"GET /v1/secrets/x/metadata// HTTP/1.1\r\nX-Project-Id: p1\r\nX-User-Id: u1\r\nX-Roles: creator\r\n\r\n|404; 0",
    b"GET /v1/secrets/x/metadata/a%20b HTTP/1.1\r\nX-Project-Id: p1\r\nX-User-Id: u1\r\nX-Roles: creator\r\n\r\n|p1 u1 01000 GetPair { id: None, key: None }; 0",
    b"GET /v1/secrets/x/metadata/K_1 HTTP/1.1\r\nX-Project-Id: p1\r\nX-User-Id: u1\r\nX-Roles: creator\r\n\r\n|p1 u1 01000 GetPair { id: None, key: Some(Text { text: \"K_1\" }) }; 0",
    b"GET /v1/secrets/x/metadata/a/b HTTP/1.1\r\nX-Project-Id: p1\r\nX-User-Id: u1\r\nX-Roles: creator\r\n\r\n|404; 0",
    b"GET /v1/secrets/01234567-89ab-8cde-8000-00000000000f/metadata/kkkkkkkkkkkkkkkkkkkkkkkkkkkkkkkkkkkkkkkk HTTP/1.1\r\nX-Project-Id: p1\r\nX-User-Id: u1\r\nX-Roles: creator\r\n\r\n|p1 u1 01000 GetPair { id: Some(Id(1512366075203863670774933082043580431)), key: Some(Text { text: \"kkkkkkkkkkkkkkkkkkkkkkkkkkkkkkkkkkkkkkkk\" }) }; 0",
    b"GET /v1/secrets/x/consumers HTTP/1.1\r\nX-Project-Id: p1\r\nX-User-Id: u1\r\nX-Roles: creator\r\n\r\n|404; 0",
    b"GET /v1/containers/x/payload HTTP/1.1\r\nX-Project-Id: p1\r\nX-User-Id: u1\r\nX-Roles: creator\r\n\r\n|404; 0",
    b"GET /v1/containers/acl/acl HTTP/1.1\r\nX-Project-Id: p1\r\nX-User-Id: u1\r\nX-Roles: creator\r\n\r\n|p1 u1 01000 GetAcl { kind: Container, id: None }; 0",
    b"GET /v1/orders/x/acl HTTP/1.1\r\nX-Project-Id: p1\r\nX-User-Id: u1\r\nX-Roles: creator\r\n\r\n|404; 0",
    b"GET /v1/quotas/x HTTP/1.1\r\nX-Project-Id: p1\r\nX-User-Id: u1\r\nX-Roles: creator\r\n\r\n|404; 0",
    b"GET /v1/project-quotas/a HTTP/1.1\r\nX-Project-Id: p1\r\nX-User-Id: u1\r\nX-Roles: creator\r\n\r\n|p1 u1 01000 GetProjectQuotas { project: Some(Name { bytes: [97, 0, 0, 0, 0, 0, 0, 0, 0, 0, 0, 0, 0, 0, 0, 0, 0, 0, 0, 0, 0, 0, 0, 0, 0, 0, 0, 0, 0, 0, 0, 0, 0, 0, 0, 0, 0, 0, 0, 0, 0, 0, 0, 0, 0, 0, 0, 0, 0, 0, 0, 0, 0, 0, 0, 0, 0, 0, 0, 0, 0, 0, 0, 0], len: 1 }) }; 0",
    b"GET /v1/project-quotas/a@b HTTP/1.1\r\nX-Project-Id: p1\r\nX-User-Id: u1\r\nX-Roles: creator\r\n\r\n|p1 u1 01000 GetProjectQuotas { project: None }; 0",
    b"GET /v1/project-quotas/pppppppppppppppppppppppppppppppppppppppppppppppppppppppppppppppp HTTP/1.1\r\nX-Project-Id: p1\r\nX-User-Id: u1\r\nX-Roles: creator\r\n\r\n|p1 u1 01000 GetProjectQuotas { project: Some(Name { bytes: [112, 112, 112, 112, 112, 112, 112, 112, 112, 112, 112, 112, 112, 112, 112, 112, 112, 112, 112, 112, 112, 112, 112, 112, 112, 112, 112, 112, 112, 112, 112, 112, 112, 112, 112, 112, 112, 112, 112, 112, 112, 112, 112, 112, 112, 112, 112, 112, 112, 112, 112, 112, 112, 112, 112, 112, 112, 112, 112, 112, 112, 112, 112, 112], len: 64 }) }; 0",
    b"GET /v1/project-quotas/ppppppppppppppppppppppppppppppppppppppppppppppppppppppppppppppppp HTTP/1.1\r\nX-Project-Id: p1\r\nX-User-Id: u1\r\nX-Roles: creator\r\n\r\n|p1 u1 01000 GetProjectQuotas { project: None }; 0",
    b"GET /v1/nothing HTTP/1.1\r\nX-Project-Id: p1\r\nX-User-Id: u1\r\nX-Roles: creator\r\n\r\n|404; 0",
    b"GET /v1/secrets/\xc3\xa9 HTTP/1.1\r\nX-Project-Id: p1\r\nX-User-Id: u1\r\nX-Roles: creator\r\n\r\n|p1 u1 01000 GetSecret { id: None, accept: None }; 0",
    b"GET /v1/secrets?\xc3\xa9 HTTP/1.1\r\nX-Project-Id: p1\r\nX-User-Id: u1\r\nX-Roles: creator\r\n\r\n|p1 u1 01000 ListSecrets { query: Text { text: \"\xc3\xa9\" } }; 0",
    b"GET /v1/secrets\xff HTTP/1.1\r\nX-Project-Id: p1\r\nX-User-Id: u1\r\nX-Roles: creator\r\n\r\n|400",
    b"GET /v1/secrets?\xc3 HTTP/1.1\r\nX-Project-Id: p1\r\nX-User-Id: u1\r\nX-Roles: creator\r\n\r\n|400",
    b"get /v1/secrets HTTP/1.1\r\nX-Project-Id: p1\r\nX-User-Id: u1\r\nX-Roles: creator\r\n\r\n|405 GET, POST; 0",
];

fn part_4() -> &'static [Case] {
    &PART_4
}

static PART_5: [Case; 25] = [
    b"TRACE /v1/nothing HTTP/1.1\r\nX-Project-Id: p1\r\nX-User-Id: u1\r\nX-Roles: creator\r\n\r\n|404; 0",
    b"GET /v1/quotas HTTP/1.1\r\n\r\n|401; 0",
    b"GET /v1/quotas HTTP/1.1\r\nX-Project-Id: p1\r\nX-User-Id: u1\r\n\r\n|401; 0",
    b"GET /v1/quotas HTTP/1.1\r\nX-Project-Id: p1\r\nX-Roles: creator\r\n\r\n|401; 0",
    b"GET /v1/quotas HTTP/1.1\r\nX-User-Id: u1\r\nX-Roles: creator\r\n\r\n|401; 0",
    b"GET /v1/quotas HTTP/1.1\r\nX-Project-Id: p1\r\nX-User-Id: u1\r\nX-Roles: creator\r\nX-Project-Id: p1\r\n\r\n|401; 0",
    b"GET /v1/quotas HTTP/1.1\r\nX-Project-Id: p1\r\nX-User-Id: u1\r\nX-Roles: creator\r\nx-user-id: u2\r\n\r\n|401; 0",
    b"GET /v1/quotas HTTP/1.1\r\nX-Project-Id: p1\r\nX-User-Id: u1\r\nX-Roles: creator\r\nX-Roles: admin\r\n\r\n|401; 0",
    b"GET /v1/quotas HTTP/1.1\r\nX-Project-Id: p1\r\nX-User-Id: u1\r\nX-Roles: creator\r\nX-Identity-Status: Confirmed\r\n\r\n|p1 u1 01000 GetQuotas; 0",
    b"GET /v1/quotas HTTP/1.1\r\nX-Project-Id: p1\r\nX-User-Id: u1\r\nX-Roles: creator\r\nX-Identity-Status: confirmed\r\n\r\n|401; 0",
    b"GET /v1/quotas HTTP/1.1\r\nX-Project-Id: p1\r\nX-User-Id: u1\r\nX-Roles: creator\r\nX-Identity-Status: Invalid\r\n\r\n|401; 0",
    b"GET /v1/quotas HTTP/1.1\r\nX-Project-Id: p1\r\nX-User-Id: u1\r\nX-Roles: creator\r\nX-Identity-Status:\r\n\r\n|401; 0",
    b"GET /v1/quotas HTTP/1.1\r\nX-Project-Id: p1\r\nX-User-Id: u1\r\nX-Roles: creator\r\nX-Identity-Status: Confirmed\r\nX-Identity-Status: Confirmed\r\n\r\n|401; 0",
    b"GET /v1/quotas HTTP/1.1\r\nX-Project-Id: \r\nX-User-Id: u1\r\nX-Roles: creator\r\n\r\n|401; 0",
    b"GET /v1/quotas HTTP/1.1\r\nX-Project-Id: a b\r\nX-User-Id: u1\r\nX-Roles: creator\r\n\r\n|401; 0",
    b"GET /v1/quotas HTTP/1.1\r\nX-Project-Id: p1\r\nX-User-Id: \xc3\xa9\r\nX-Roles: creator\r\n\r\n|401; 0",
    b"GET /v1/quotas HTTP/1.1\r\nX-Project-Id: p1\r\nX-User-Id: uuuuuuuuuuuuuuuuuuuuuuuuuuuuuuuuuuuuuuuuuuuuuuuuuuuuuuuuuuuuuuuu\r\nX-Roles: creator\r\n\r\n|p1 uuuuuuuuuuuuuuuuuuuuuuuuuuuuuuuuuuuuuuuuuuuuuuuuuuuuuuuuuuuuuuuu 01000 GetQuotas; 0",
    b"GET /v1/quotas HTTP/1.1\r\nX-Project-Id: p1\r\nX-User-Id: uuuuuuuuuuuuuuuuuuuuuuuuuuuuuuuuuuuuuuuuuuuuuuuuuuuuuuuuuuuuuuuuu\r\nX-Roles: creator\r\n\r\n|401; 0",
    b"GET /v1/quotas HTTP/1.1\r\nx-roles:\r\nX-USER-ID:u_1\r\nx-project-ID: \t p.1 \t\r\n\r\n|p.1 u_1 00000 GetQuotas; 0",
    b"GET /v1/quotas HTTP/1.1\r\nX-Project-Id: p1\r\nX-User-Id: u1\r\nX-Roles: admin\r\n\r\n|p1 u1 10000 GetQuotas; 0",
    b"GET /v1/quotas HTTP/1.1\r\nX-Project-Id: p1\r\nX-User-Id: u1\r\nX-Roles: ADMIN, Observer ,\taudit\r\n\r\n|p1 u1 10110 GetQuotas; 0",
    b"GET /v1/quotas HTTP/1.1\r\nX-Project-Id: p1\r\nX-User-Id: u1\r\nX-Roles: key-manager:service-admin\r\n\r\n|p1 u1 00001 GetQuotas; 0",
    b"GET /v1/quotas HTTP/1.1\r\nX-Project-Id: p1\r\nX-User-Id: u1\r\nX-Roles: Key-Manager:Service-Admin,creator\r\n\r\n|p1 u1 01001 GetQuotas; 0",
    b"GET /v1/quotas HTTP/1.1\r\nX-Project-Id: p1\r\nX-User-Id: u1\r\nX-Roles: creators\r\n\r\n|p1 u1 00000 GetQuotas; 0",
    b"GET /v1/quotas HTTP/1.1\r\nX-Project-Id: p1\r\nX-User-Id: u1\r\nX-Roles: creato\r\n\r\n|p1 u1 00000 GetQuotas; 0",
];

fn part_5() -> &'static [Case] {
    &PART_5
}

static PART_6: [Case; 25] = [
    b"GET /v1/quotas HTTP/1.1\r\nX-Project-Id: p1\r\nX-User-Id: u1\r\nX-Roles: admin;creator\r\n\r\n|p1 u1 00000 GetQuotas; 0",
    b"GET /v1/quotas HTTP/1.1\r\nX-Project-Id: p1\r\nX-User-Id: u1\r\nX-Roles: a,,b\r\n\r\n|p1 u1 00000 GetQuotas; 0",
    b"GET /v1/quotas HTTP/1.1\r\nX-Project-Id: p1\r\nX-User-Id: u1\r\nX-Roles: ,\r\n\r\n|p1 u1 00000 GetQuotas; 0",
    b"GET /v1/quotas HTTP/1.1\r\nX-Project-Id: p1\r\nX-User-Id: u1\r\nX-Roles: admin creator\r\n\r\n|p1 u1 00000 GetQuotas; 0",
    b"GET /v1/quotas HTTP/1.1\r\nX-Project-Id: p1\r\nX-User-Id: u1\r\nX-Roles: \xe9,audit\r\n\r\n|p1 u1 00010 GetQuotas; 0",
    b"GET /v1/quotas HTTP/1.1\r\nX-Project-Id: p1\r\nX-User-Id: u1\r\nX-Roles: creator,creator\r\n\r\n|p1 u1 01000 GetQuotas; 0",
    b"GET /v1/secrets/01234567-89ab-8cde-8000-00000000000f/payload HTTP/1.1\r\nX-Project-Id: p1\r\nX-User-Id: u1\r\nX-Roles: creator\r\nAccept: application/json\r\n\r\n|p1 u1 01000 GetPayload { id: Some(Id(1512366075203863670774933082043580431)), accept: Some(Text { text: \"application/json\" }) }; 0",
    b"GET /v1/secrets/01234567-89ab-8cde-8000-00000000000f/payload HTTP/1.1\r\nX-Project-Id: p1\r\nX-User-Id: u1\r\nX-Roles: creator\r\nAccept:\r\n\r\n|p1 u1 01000 GetPayload { id: Some(Id(1512366075203863670774933082043580431)), accept: Some(Text { text: \"\" }) }; 0",
    b"GET /v1/secrets/01234567-89ab-8cde-8000-00000000000f/payload HTTP/1.1\r\nX-Project-Id: p1\r\nX-User-Id: u1\r\nX-Roles: creator\r\nAccept: text/*\r\nACCEPT: a;q=1, b\r\n\r\n|p1 u1 01000 GetPayload { id: Some(Id(1512366075203863670774933082043580431)), accept: Some(Text { text: \"text/*,a;q=1, b\" }) }; 0",
    b"GET /v1/secrets/01234567-89ab-8cde-8000-00000000000f/payload HTTP/1.1\r\nX-Project-Id: p1\r\nX-User-Id: u1\r\nX-Roles: creator\r\nAccept: \xff\r\n\r\n|p1 u1 01000 GetPayload { id: Some(Id(1512366075203863670774933082043580431)), accept: Some(Text { text: \"\" }) }; 0",
    b"GET /v1/secrets/01234567-89ab-8cde-8000-00000000000f/payload HTTP/1.1\r\nX-Project-Id: p1\r\nX-User-Id: u1\r\nX-Roles: creator\r\nAccept: a\r\nAccept: \xff\r\nAccept: b\r\n\r\n|p1 u1 01000 GetPayload { id: Some(Id(1512366075203863670774933082043580431)), accept: Some(Text { text: \"a,,b\" }) }; 0",
    b"PUT /v1/secrets/01234567-89ab-8cde-8000-00000000000f HTTP/1.1\r\nX-Project-Id: p1\r\nX-User-Id: u1\r\nX-Roles: creator\r\nContent-Type: text/plain\r\nContent-Length: 3\r\n\r\nabc|p1 u1 01000 PutPayload { id: Some(Id(1512366075203863670774933082043580431)), put: PutShape { content_type: Some(Text { text: \"text/plain\" }), content_encoding: None } }; 3",
    b"PUT /v1/secrets/01234567-89ab-8cde-8000-00000000000f HTTP/1.1\r\nX-Project-Id: p1\r\nX-User-Id: u1\r\nX-Roles: creator\r\nContent-Type: application/json; charset=utf-8\r\nContent-Encoding: base64\r\nContent-Length: 3\r\n\r\nabc|p1 u1 01000 PutPayload { id: Some(Id(1512366075203863670774933082043580431)), put: PutShape { content_type: Some(Text { text: \"application/json; charset=utf-8\" }), content_encoding: Some(Text { text: \"base64\" }) } }; 3",
    b"PUT /v1/secrets/01234567-89ab-8cde-8000-00000000000f HTTP/1.1\r\nX-Project-Id: p1\r\nX-User-Id: u1\r\nX-Roles: creator\r\nContent-Type: a\r\nContent-Type: a\r\nContent-Length: 3\r\n\r\nabc|p1 u1 01000 PutPayload { id: Some(Id(1512366075203863670774933082043580431)), put: PutShape { content_type: Some(Text { text: \"\" }), content_encoding: None } }; 3",
    b"PUT /v1/secrets/01234567-89ab-8cde-8000-00000000000f HTTP/1.1\r\nX-Project-Id: p1\r\nX-User-Id: u1\r\nX-Roles: creator\r\nContent-Type: \xff\r\nContent-Length: 3\r\n\r\nabc|p1 u1 01000 PutPayload { id: Some(Id(1512366075203863670774933082043580431)), put: PutShape { content_type: Some(Text { text: \"\" }), content_encoding: None } }; 3",
    b"PUT /v1/secrets/01234567-89ab-8cde-8000-00000000000f HTTP/1.1\r\nX-Project-Id: p1\r\nX-User-Id: u1\r\nX-Roles: creator\r\nContent-Encoding: gzip\r\ncontent-encoding: gzip\r\nContent-Length: 3\r\n\r\nabc|p1 u1 01000 PutPayload { id: Some(Id(1512366075203863670774933082043580431)), put: PutShape { content_type: None, content_encoding: Some(Text { text: \"\" }) } }; 3",
    b"PUT /v1/secrets/01234567-89ab-8cde-8000-00000000000f HTTP/1.1\r\nX-Project-Id: p1\r\nX-User-Id: u1\r\nX-Roles: creator\r\nContent-Type:\r\nContent-Encoding:\r\nContent-Length: 3\r\n\r\nabc|p1 u1 01000 PutPayload { id: Some(Id(1512366075203863670774933082043580431)), put: PutShape { content_type: Some(Text { text: \"\" }), content_encoding: Some(Text { text: \"\" }) } }; 3",
    b"POST /v1/secrets HTTP/1.1\r\nX-Project-Id: p1\r\nX-User-Id: u1\r\nX-Roles: creator\r\nContent-Type: text/html\r\nContent-Length: 2\r\n\r\n{}|p1 u1 01000 PostSecret { content_type: Some(Text { text: \"text/html\" }) }; 2",
    b"|more",
    b"GET|more",
    b"GET /v1/quotas HTTP/1.1\r\nX-Project-Id: p1\r\nX-User-Id: u1\r\nX-Roles: creator\r\n|more",
    b"GET /v1/quotas HTTP/1.1\r\nX-Project-Id: p1\r\nX-User-Id: u1\r\nX-Roles: creator\r\n\r|more",
    b"\r\nGET /v1/quotas HTTP/1.1\r\nX-Project-Id: p1\r\nX-User-Id: u1\r\nX-Roles: creator\r\n\r\n|p1 u1 01000 GetQuotas; 0",
    b"\n\nGET /v1/quotas HTTP/1.1\r\nX-Project-Id: p1\r\nX-User-Id: u1\r\nX-Roles: creator\r\n\r\n|p1 u1 01000 GetQuotas; 0",
    b" GET /v1/quotas HTTP/1.1\r\nX-Project-Id: p1\r\nX-User-Id: u1\r\nX-Roles: creator\r\n\r\n|400",
];

fn part_6() -> &'static [Case] {
    &PART_6
}

static PART_7: [Case; 25] = [
    b"\rGET /v1/quotas HTTP/1.1\r\nX-Project-Id: p1\r\nX-User-Id: u1\r\nX-Roles: creator\r\n\r\n|400",
    b"GET /v1/quotas HTTP/1.1\nX-Project-Id: p1\nX-User-Id: u1\nX-Roles: creator\n\r\n|more",
    b"GET /v1/quotas HTTP/1.1\r\nX-Project-Id: p1\r\nX-User-Id: u1\r\nX-Roles: creator\r\n\n|more",
    b"GET /v1/quotas HTTP/1.1\r\nX-Project-Id: p1\r\nX-User-Id: u1\r\nX-Roles: creator\r\n\n\r\n\r\n|400",
    b"GET /v1/quotas HTTP/1.1\r\nX-Project-Id: p1\r\nX-User-Id: u1\r\nX-Roles: creator\r\nA: b\n\n\r\n\r\n|400",
    b"GET /v1/quotas HTTP/1.1\r\nX-Project-Id: p1\r\nX-User-Id: u1\r\nX-Roles: creator\r\nA : b\r\n\r\n|400",
    b"GET /v1/quotas HTTP/1.1\r\nX-Project-Id: p1\r\nX-User-Id: u1\r\nX-Roles: creator\r\nA: b\r\n c\r\n\r\n|400",
    b"GET /v1/quotas HTTP/1.1\r\nX-Project-Id: p1\r\nX-User-Id: u1\r\nX-Roles: creator\r\nA: a\0b\r\n\r\n|400",
    b"GET /v1/quotas HTTP/1.1\r\nX-Project-Id: p1\r\nX-User-Id: u1\r\nX-Roles: creator\r\nA: a\x7f\r\n\r\n|400",
    b"GET /v1/quotas HTTP/1.1\r\nX-Project-Id: p1\r\nX-User-Id: u1\r\nX-Roles: creator\r\nA: a\tb\r\n\r\n|p1 u1 01000 GetQuotas; 0",
    b"GET /v1/quotas HTTP/1.1\r\nX-Project-Id: p1\r\nX-User-Id: u1\r\nX-Roles: creator\r\nA: \xff\r\n\r\n|p1 u1 01000 GetQuotas; 0",
    b"GET /v1/quotas HTTP/1.1\r\nX-Project-Id: p1\r\nX-User-Id: u1\r\nX-Roles: creator\r\n: a\r\n\r\n|400",
    b"GET /v1/quotas HTTP/1.1\r\nX-Project-Id: p1\r\nX-User-Id: u1\r\nX-Roles: creator\r\nA\r\n\r\n|400",
    b"GET /v1/quotas HTTP/1.1\r\nX-Project-Id: p1\r\nX-User-Id: u1\r\nX-Roles: creator\r\nA\xc3: b\r\n\r\n|400",
    b"GET /v1/quotas HTTP/1.1\r\nX-Project-Id: p1\r\nX-User-Id: u1\r\nX-Roles: creator\r\nHost: a\r\nHost: b\r\n\r\n|p1 u1 01000 GetQuotas; 0",
    b"GET /v1/quotas HTTP/1.1\r\nX-Project-Id: p1\r\nX-User-Id: u1\r\nX-Roles: creator\r\nExpect: 100-continue\r\n\r\n|p1 u1 01000 GetQuotas; 0",
    b"GET /v1/quotas HTTP/1.1\r\nX-Project-Id: p1\r\nX-User-Id: u1\r\nX-Roles: creator\r\nA:bbbbbbbbbbbbbbbbbbbbbbbbbbbbbbbbbbbbbbbbbbbbbbbbbbbbbbbbbbbbbbbbbbbbbbbbbbbbbbbbbbbbbbbbbbbbbbbbbbbbbbbbbbbbbbbbbbbbbbbbbbbbbbbbbbbbbbbbbbbbbbbbbbbbbbbbbbbbbbbbbbbbbbbbbbbbbbbbbbbbbbbbbbbbbbbbbbbbbbbbbbbbbbbbbbbbbbbbbbbbbbbbbbbbbbbbbbbbbbbbbbbbbbbbbbbbbbbbbbbbbbbbbbbbbbbbbbbbbbbbbbbbbbbbbbbbbbbbbbbb\r\n\r\n|p1 u1 01000 GetQuotas; 0",
    b"GET /v1/quotas HTTP/1.0\r\nX-Project-Id: p1\r\nX-User-Id: u1\r\nX-Roles: creator\r\n\r\n|close p1 u1 01000 GetQuotas; 0",
    b"GET /v1/quotas HTTP/1.2\r\nX-Project-Id: p1\r\nX-User-Id: u1\r\nX-Roles: creator\r\n\r\n|400",
    b"GET /v1/quotas HTTP/2.0\r\nX-Project-Id: p1\r\nX-User-Id: u1\r\nX-Roles: creator\r\n\r\n|400",
    b"GET /v1/quotas HTTP/1.1 \r\nX-Project-Id: p1\r\nX-User-Id: u1\r\nX-Roles: creator\r\n\r\n|400",
    b"GET  /v1/quotas HTTP/1.1\r\nX-Project-Id: p1\r\nX-User-Id: u1\r\nX-Roles: creator\r\n\r\n|400",
    b"GET /v1/quotas  HTTP/1.1\r\nX-Project-Id: p1\r\nX-User-Id: u1\r\nX-Roles: creator\r\n\r\n|400",
    b"GET /v1/quotas\r\nX-Project-Id: p1\r\nX-User-Id: u1\r\nX-Roles: creator\r\n\r\n|400",
    b"G(T /v1/quotas HTTP/1.1\r\nX-Project-Id: p1\r\nX-User-Id: u1\r\nX-Roles: creator\r\n\r\n|400",
];

fn part_7() -> &'static [Case] {
    &PART_7
}

static PART_8: [Case; 25] = [
    b"GET /v1/quo\ttas HTTP/1.1\r\nX-Project-Id: p1\r\nX-User-Id: u1\r\nX-Roles: creator\r\n\r\n|400",
    b" /v1/quotas HTTP/1.1\r\nX-Project-Id: p1\r\nX-User-Id: u1\r\nX-Roles: creator\r\n\r\n|400",
    b"HELLO\r\n\r\n|400",
    b"\r\n\r\n|400",
    b"\0\r\n\r\n|400",
    b"GET / HTTP/1.1\r\n\r\nGET /v1/quotas HTTP/1.1\r\nX-Project-Id: p1\r\nX-User-Id: u1\r\nX-Roles: creator\r\n|401; 0",
    b"GET /v1/quotas HTTP/1.1\r\nX-Project-Id: p1\r\nX-User-Id: u1\r\nX-Roles: creator\r\n\r\nrest|p1 u1 01000 GetQuotas; 0",
    b"GET /v1/quotas HTTP/1.1\r\nX-Project-Id: p1\r\nX-User-Id: u1\r\nX-Roles: creator\r\nA: 1\r\nA: 1\r\nA: 1\r\nA: 1\r\nA: 1\r\nA: 1\r\nA: 1\r\nA: 1\r\nA: 1\r\nA: 1\r\nA: 1\r\nA: 1\r\nA: 1\r\nA: 1\r\nA: 1\r\nA: 1\r\nA: 1\r\nA: 1\r\nA: 1\r\nA: 1\r\nA: 1\r\nA: 1\r\nA: 1\r\nA: 1\r\nA: 1\r\nA: 1\r\nA: 1\r\nA: 1\r\nA: 1\r\nA: 1\r\nA: 1\r\nA: 1\r\nA: 1\r\nA: 1\r\nA: 1\r\nA: 1\r\nA: 1\r\nA: 1\r\nA: 1\r\nA: 1\r\nA: 1\r\nA: 1\r\nA: 1\r\nA: 1\r\nA: 1\r\nA: 1\r\nA: 1\r\nA: 1\r\nA: 1\r\nA: 1\r\nA: 1\r\nA: 1\r\nA: 1\r\nA: 1\r\nA: 1\r\nA: 1\r\nA: 1\r\nA: 1\r\nA: 1\r\nA: 1\r\nA: 1\r\n\r\n|p1 u1 01000 GetQuotas; 0",
    b"GET /v1/quotas HTTP/1.1\r\nX-Project-Id: p1\r\nX-User-Id: u1\r\nX-Roles: creator\r\nA: 1\r\nA: 1\r\nA: 1\r\nA: 1\r\nA: 1\r\nA: 1\r\nA: 1\r\nA: 1\r\nA: 1\r\nA: 1\r\nA: 1\r\nA: 1\r\nA: 1\r\nA: 1\r\nA: 1\r\nA: 1\r\nA: 1\r\nA: 1\r\nA: 1\r\nA: 1\r\nA: 1\r\nA: 1\r\nA: 1\r\nA: 1\r\nA: 1\r\nA: 1\r\nA: 1\r\nA: 1\r\nA: 1\r\nA: 1\r\nA: 1\r\nA: 1\r\nA: 1\r\nA: 1\r\nA: 1\r\nA: 1\r\nA: 1\r\nA: 1\r\nA: 1\r\nA: 1\r\nA: 1\r\nA: 1\r\nA: 1\r\nA: 1\r\nA: 1\r\nA: 1\r\nA: 1\r\nA: 1\r\nA: 1\r\nA: 1\r\nA: 1\r\nA: 1\r\nA: 1\r\nA: 1\r\nA: 1\r\nA: 1\r\nA: 1\r\nA: 1\r\nA: 1\r\nA: 1\r\nA: 1\r\nA: 1\r\n\r\n|431",
    b"\nGET /v1/quotas HTTP/1.1\r\nX-Project-Id: p1\r\nX-User-Id: u1\r\nX-Roles: creator\r\nA: 1\r\nA: 1\r\nA: 1\r\nA: 1\r\nA: 1\r\nA: 1\r\nA: 1\r\nA: 1\r\nA: 1\r\nA: 1\r\nA: 1\r\nA: 1\r\nA: 1\r\nA: 1\r\nA: 1\r\nA: 1\r\nA: 1\r\nA: 1\r\nA: 1\r\nA: 1\r\nA: 1\r\nA: 1\r\nA: 1\r\nA: 1\r\nA: 1\r\nA: 1\r\nA: 1\r\nA: 1\r\nA: 1\r\nA: 1\r\nA: 1\r\nA: 1\r\nA: 1\r\nA: 1\r\nA: 1\r\nA: 1\r\nA: 1\r\nA: 1\r\nA: 1\r\nA: 1\r\nA: 1\r\nA: 1\r\nA: 1\r\nA: 1\r\nA: 1\r\nA: 1\r\nA: 1\r\nA: 1\r\nA: 1\r\nA: 1\r\nA: 1\r\nA: 1\r\nA: 1\r\nA: 1\r\nA: 1\r\nA: 1\r\nA: 1\r\nA: 1\r\nA: 1\r\nA: 1\r\nA: 1\r\n\r\n|431",
    b"POST /v1/orders HTTP/1.1\r\nX-Project-Id: p1\r\nX-User-Id: u1\r\nX-Roles: creator\r\nContent-Length: 0\r\n\r\n{   }|p1 u1 01000 PostOrder { content_type: None }; 0",
    b"POST /v1/orders HTTP/1.1\r\nX-Project-Id: p1\r\nX-User-Id: u1\r\nX-Roles: creator\r\nContent-Length: 2\r\n\r\n{   }|p1 u1 01000 PostOrder { content_type: None }; 2",
    b"POST /v1/orders HTTP/1.1\r\nX-Project-Id: p1\r\nX-User-Id: u1\r\nX-Roles: creator\r\nContent-Length: 5\r\n\r\n{   }|p1 u1 01000 PostOrder { content_type: None }; 5",
    b"POST /v1/orders HTTP/1.1\r\nX-Project-Id: p1\r\nX-User-Id: u1\r\nX-Roles: creator\r\nContent-Length: 6\r\n\r\n{   }|more",
    b"POST /v1/orders HTTP/1.1\r\nX-Project-Id: p1\r\nX-User-Id: u1\r\nX-Roles: creator\r\nContent-Length: 005\r\n\r\n{   }|p1 u1 01000 PostOrder { content_type: None }; 5",
    b"POST /v1/orders HTTP/1.1\r\nX-Project-Id: p1\r\nX-User-Id: u1\r\nX-Roles: creator\r\nContent-Length: +5\r\n\r\n{   }|400",
    b"POST /v1/orders HTTP/1.1\r\nX-Project-Id: p1\r\nX-User-Id: u1\r\nX-Roles: creator\r\nContent-Length: -1\r\n\r\n{   }|400",
    b"POST /v1/orders HTTP/1.1\r\nX-Project-Id: p1\r\nX-User-Id: u1\r\nX-Roles: creator\r\nContent-Length: 5.\r\n\r\n{   }|400",
    b"POST /v1/orders HTTP/1.1\r\nX-Project-Id: p1\r\nX-User-Id: u1\r\nX-Roles: creator\r\nContent-Length: 0x5\r\n\r\n{   }|400",
    b"POST /v1/orders HTTP/1.1\r\nX-Project-Id: p1\r\nX-User-Id: u1\r\nX-Roles: creator\r\nContent-Length: 5 5\r\n\r\n{   }|400",
    b"POST /v1/orders HTTP/1.1\r\nX-Project-Id: p1\r\nX-User-Id: u1\r\nX-Roles: creator\r\nContent-Length: 5, 5\r\n\r\n{   }|400",
    b"POST /v1/orders HTTP/1.1\r\nX-Project-Id: p1\r\nX-User-Id: u1\r\nX-Roles: creator\r\nContent-Length:\r\n\r\n{   }|400",
    b"POST /v1/orders HTTP/1.1\r\nX-Project-Id: p1\r\nX-User-Id: u1\r\nX-Roles: creator\r\nContent-Length: 5\r\nContent-Length: 5\r\n\r\n{   }|400",
    b"POST /v1/orders HTTP/1.1\r\nX-Project-Id: p1\r\nX-User-Id: u1\r\nX-Roles: creator\r\nContent-Length: 65536\r\n\r\n{   }|more",
    b"POST /v1/orders HTTP/1.1\r\nX-Project-Id: p1\r\nX-User-Id: u1\r\nX-Roles: creator\r\nContent-Length: 65537\r\n\r\n{   }|413",
];

fn part_8() -> &'static [Case] {
    &PART_8
}

static PART_9: [Case; 21] = [
    b"POST /v1/orders HTTP/1.1\r\nX-Project-Id: p1\r\nX-User-Id: u1\r\nX-Roles: creator\r\nContent-Length: 18446744073709551621\r\n\r\n{   }|413",
    b"POST /v1/orders HTTP/1.1\r\nX-Project-Id: p1\r\nX-User-Id: u1\r\nX-Roles: creator\r\nContent-Length: 99999999999999999999\r\n\r\n{   }|413",
    b"POST /v1/orders HTTP/1.1\r\nX-Project-Id: p1\r\nX-User-Id: u1\r\nX-Roles: creator\r\nContent-Length: 00000000000000000000005\r\n\r\n{   }|p1 u1 01000 PostOrder { content_type: None }; 5",
    b"POST /v1/orders HTTP/1.1\r\nX-Project-Id: p1\r\nX-User-Id: u1\r\nX-Roles: creator\r\ncontent-LENGTH:\t5\t\r\n\r\n{   }|p1 u1 01000 PostOrder { content_type: None }; 5",
    b"POST /v1/orders HTTP/1.1\r\nX-Project-Id: p1\r\nX-User-Id: u1\r\nX-Roles: creator\r\n\r\n{   }|411",
    b"POST /v1/orders HTTP/1.1\r\nX-Project-Id: p1\r\nX-User-Id: u1\r\nX-Roles: creator\r\nTransfer-Encoding: chunked\r\n\r\n{   }|411",
    b"POST /v1/orders HTTP/1.1\r\nX-Project-Id: p1\r\nX-User-Id: u1\r\nX-Roles: creator\r\nTransfer-Encoding: identity\r\nContent-Length: 5\r\n\r\n{   }|411",
    b"POST /v1/orders HTTP/1.1\r\nX-Project-Id: p1\r\nX-User-Id: u1\r\nX-Roles: creator\r\nTransfer-Encoding:\r\nContent-Length: x\r\n\r\n{   }|411",
    b"POST /v1/orders HTTP/1.1\r\nX-Project-Id: p1\r\nX-User-Id: u1\r\nX-Roles: creator\r\nContent-Length: 70000\r\nContent-Length: 5\r\n\r\n{   }|400",
    b"POST /v1/orders HTTP/1.1\r\nX-Project-Id: p1\r\nX-User-Id: u1\r\nX-Roles: creator\r\nConnection: close\r\nContent-Length: 5\r\n\r\n{   }|close p1 u1 01000 PostOrder { content_type: None }; 5",
    b"POST /v1/orders HTTP/1.1\r\nX-Project-Id: p1\r\nX-User-Id: u1\r\nX-Roles: creator\r\nConnection: keep-alive, Close\r\nContent-Length: 5\r\n\r\n{   }|close p1 u1 01000 PostOrder { content_type: None }; 5",
    b"POST /v1/orders HTTP/1.1\r\nX-Project-Id: p1\r\nX-User-Id: u1\r\nX-Roles: creator\r\nConnection: closed\r\nContent-Length: 5\r\n\r\n{   }|p1 u1 01000 PostOrder { content_type: None }; 5",
    b"POST /v1/orders HTTP/1.1\r\nX-Project-Id: p1\r\nX-User-Id: u1\r\nX-Roles: creator\r\nConnection: a\r\nconnection:\tCLOSE\t,\r\nContent-Length: 5\r\n\r\n{   }|close p1 u1 01000 PostOrder { content_type: None }; 5",
    b"POST /v1/orders HTTP/1.1\r\nX-Project-Id: p1\r\nX-User-Id: u1\r\nX-Roles: creator\r\nConnection: close;\r\nContent-Length: 5\r\n\r\n{   }|p1 u1 01000 PostOrder { content_type: None }; 5",
    b"GET /v1/orders HTTP/1.1\r\nX-Project-Id: p1\r\nX-User-Id: u1\r\nX-Roles: creator\r\n\r\n{}|p1 u1 01000 ListOrders { query: Text { text: \"\" } }; 0",
    b"GET /v1/orders HTTP/1.1\r\nX-Project-Id: p1\r\nX-User-Id: u1\r\nX-Roles: creator\r\nContent-Length: 2\r\n\r\n{}|p1 u1 01000 ListOrders { query: Text { text: \"\" } }; 2",
    b"DELETE /v1/orders HTTP/1.1\r\nX-Project-Id: p1\r\nX-User-Id: u1\r\nX-Roles: creator\r\n\r\n{}|405 GET, POST; 0",
    b"DELETE /v1/orders HTTP/1.1\r\nX-Project-Id: p1\r\nX-User-Id: u1\r\nX-Roles: creator\r\nContent-Length: 2\r\n\r\n{}|405 GET, POST; 2",
    b"OPTIONS /v1/orders HTTP/1.1\r\nX-Project-Id: p1\r\nX-User-Id: u1\r\nX-Roles: creator\r\n\r\n{}|405 GET, POST; 0",
    b"OPTIONS /v1/orders HTTP/1.1\r\nX-Project-Id: p1\r\nX-User-Id: u1\r\nX-Roles: creator\r\nContent-Length: 2\r\n\r\n{}|405 GET, POST; 2",
    b"PATCH /v1/orders HTTP/1.1\r\nX-Project-Id: p1\r\nX-User-Id: u1\r\nX-Roles: creator\r\n\r\n{}|411",
];

fn part_9() -> &'static [Case] {
    &PART_9
}

/// All cases, in parts.
pub fn parts() -> [&'static [Case]; 10] {
    [
        part_0(),
        part_1(),
        part_2(),
        part_3(),
        part_4(),
        part_5(),
        part_6(),
        part_7(),
        part_8(),
        part_9(),
    ]
}
