// Bodies of answers that the tests compare; tests/json_vectors.py computes them and says how they read.

pub static PLAIN_SECRET: &str =
    "{\"algorithm\":null,\"bit_length\":null,\"created\":\"1985-10-26T08:20:00\",\"creator_id\":\"u1\",\"expiration\":null,\"mode\":null,\"name\":\"a\",\"secret_ref\":\"http://k/v1/secrets/01234567-89ab-8cde-8000-000000000000\",\"secret_type\":\"opaque\",\"status\":\"ACTIVE\",\"updated\":\"1985-10-26T08:20:00\"}";

pub static FULL_SECRET: &str =
    "{\"algorithm\":\"aes\",\"bit_length\":256,\"content_types\":{\"default\":\"application/octet-stream\"},\"created\":\"1985-10-26T08:20:00\",\"creator_id\":\"u1\",\"expiration\":\"9999-12-31T23:59:59\",\"mode\":\"cbc\",\"name\":null,\"secret_ref\":\"http://k/v1/secrets/01234567-89ab-8cde-8000-000000000000\",\"secret_type\":\"symmetric\",\"status\":\"ACTIVE\",\"updated\":\"1985-10-26T08:20:01\"}";

pub static METADATA: &str = "{\"metadata\":{\"a\":\"q\\\"\",\"b.c\":\"\u{e9}\\n\"}}";

pub static NO_METADATA: &str = "{\"metadata\":{}}";

pub static PAIR: &str = "{\"key\":\"a\",\"value\":\"\\t\"}";

pub static NO_ACL: &str = "{\"read\":{\"project-access\":true}}";

pub static ACL: &str =
    "{\"read\":{\"created\":\"1985-10-26T08:20:00\",\"project-access\":false,\"updated\":\"1985-10-26T08:20:01\",\"users\":[\"u1\"]}}";

pub static PENDING: &str =
    "{\"created\":\"1985-10-26T08:20:00\",\"creator_id\":\"u1\",\"meta\":{\"algorithm\":\"aes\",\"bit_length\":256,\"expiration\":null,\"mode\":\"cbc\",\"name\":null,\"payload_content_type\":\"application/octet-stream\"},\"order_ref\":\"http://k/v1/orders/01234567-89ab-8cde-8000-000000000000\",\"status\":\"PENDING\",\"type\":\"key\",\"updated\":\"1985-10-26T08:20:01\"}";

pub static ACTIVE: &str =
    "{\"created\":\"1985-10-26T08:20:00\",\"creator_id\":\"u1\",\"meta\":{\"algorithm\":\"aes\",\"bit_length\":256,\"expiration\":null,\"mode\":\"cbc\",\"name\":null,\"payload_content_type\":\"application/octet-stream\"},\"order_ref\":\"http://k/v1/orders/01234567-89ab-8cde-8000-000000000000\",\"secret_ref\":\"http://k/v1/secrets/01234567-89ab-8cde-8000-000000000001\",\"status\":\"ACTIVE\",\"type\":\"key\",\"updated\":\"1985-10-26T08:20:01\"}";

pub static UNSUPPORTED: &str =
    "{\"created\":\"1985-10-26T08:20:00\",\"creator_id\":\"u1\",\"error_reason\":\"algorithm and bit_length not offered\",\"error_status_code\":\"400\",\"meta\":{\"algorithm\":\"aes\",\"bit_length\":256,\"expiration\":null,\"mode\":\"cbc\",\"name\":null,\"payload_content_type\":\"application/octet-stream\"},\"order_ref\":\"http://k/v1/orders/01234567-89ab-8cde-8000-000000000000\",\"status\":\"ERROR\",\"type\":\"key\",\"updated\":\"1985-10-26T08:20:01\"}";

pub static NO_QUOTA: &str =
    "{\"created\":\"1985-10-26T08:20:00\",\"creator_id\":\"u1\",\"error_reason\":\"quota of secrets reached\",\"error_status_code\":\"403\",\"meta\":{\"algorithm\":\"aes\",\"bit_length\":256,\"expiration\":null,\"mode\":\"cbc\",\"name\":null,\"payload_content_type\":\"application/octet-stream\"},\"order_ref\":\"http://k/v1/orders/01234567-89ab-8cde-8000-000000000000\",\"status\":\"ERROR\",\"type\":\"key\",\"updated\":\"1985-10-26T08:20:01\"}";

pub static NO_IDS: &str =
    "{\"created\":\"1985-10-26T08:20:00\",\"creator_id\":\"u1\",\"error_reason\":\"ids spent\",\"error_status_code\":\"500\",\"meta\":{\"algorithm\":\"aes\",\"bit_length\":256,\"expiration\":null,\"mode\":\"cbc\",\"name\":null,\"payload_content_type\":\"application/octet-stream\"},\"order_ref\":\"http://k/v1/orders/01234567-89ab-8cde-8000-000000000000\",\"status\":\"ERROR\",\"type\":\"key\",\"updated\":\"1985-10-26T08:20:01\"}";

pub static EMPTY_CONTAINER: &str =
    "{\"consumers\":[],\"container_ref\":\"http://k/v1/containers/01234567-89ab-8cde-8000-000000000001\",\"created\":\"1985-10-26T08:20:00\",\"creator_id\":\"u1\",\"name\":\"c\",\"secret_refs\":[],\"status\":\"ACTIVE\",\"type\":\"rsa\",\"updated\":\"1985-10-26T08:20:01\"}";

pub static FULL_CONTAINER: &str =
    "{\"consumers\":[{\"URL\":\"u\\\"\\\\\\n\\u0001\u{7f}\",\"name\":\"n\u{e9}\"}],\"container_ref\":\"http://k/v1/containers/01234567-89ab-8cde-8000-000000000001\",\"created\":\"1985-10-26T08:20:00\",\"creator_id\":\"u1\",\"name\":null,\"secret_refs\":[{\"name\":\"private_key\",\"secret_ref\":\"http://k/v1/secrets/01234567-89ab-8cde-8000-000000000000\"},{\"name\":null,\"secret_ref\":\"http://k/v1/secrets/01234567-89ab-8cde-8000-000000000001\"}],\"status\":\"ACTIVE\",\"type\":\"rsa\",\"updated\":\"1985-10-26T08:20:01\"}";

pub static QUOTAS: &str =
    "{\"quotas\":{\"consumers\":5,\"containers\":1000000000,\"orders\":0,\"secrets\":-1}}";

pub static PROJECT_QUOTAS: &str =
    "{\"project_quotas\":{\"consumers\":7,\"containers\":null,\"orders\":-1,\"secrets\":null}}";

pub static SECRETS: &str =
    "{\"next\":\"http://k/v1/secrets?limit=1&offset=6&x=a+b%26\",\"previous\":\"http://k/v1/secrets?limit=1&offset=4&x=a+b%26\",\"secrets\":[{\"algorithm\":null,\"bit_length\":null,\"created\":\"1985-10-26T08:20:00\",\"creator_id\":\"u1\",\"expiration\":null,\"mode\":null,\"name\":\"a\",\"secret_ref\":\"http://k/v1/secrets/01234567-89ab-8cde-8000-000000000000\",\"secret_type\":\"opaque\",\"status\":\"ACTIVE\",\"updated\":\"1985-10-26T08:20:00\"}],\"total\":30}";

pub static CONTAINERS: &str =
    "{\"containers\":[{\"consumers\":[],\"container_ref\":\"http://k/v1/containers/01234567-89ab-8cde-8000-000000000001\",\"created\":\"1985-10-26T08:20:00\",\"creator_id\":\"u1\",\"name\":\"c\",\"secret_refs\":[],\"status\":\"ACTIVE\",\"type\":\"rsa\",\"updated\":\"1985-10-26T08:20:01\"}],\"next\":\"http://k/v1/containers?limit=10&offset=10\",\"total\":11}";

pub static CONSUMERS: &str =
    "{\"consumers\":[{\"URL\":\"u\\\"\\\\\\n\\u0001\u{7f}\",\"name\":\"n\u{e9}\"}],\"previous\":\"http://k/v1/containers/01234567-89ab-8cde-8000-000000000001/consumers?limit=100&offset=0\",\"total\":4}";

pub static ORDERS: &str =
    "{\"orders\":[{\"created\":\"1985-10-26T08:20:00\",\"creator_id\":\"u1\",\"meta\":{\"algorithm\":\"aes\",\"bit_length\":256,\"expiration\":null,\"mode\":\"cbc\",\"name\":null,\"payload_content_type\":\"application/octet-stream\"},\"order_ref\":\"http://k/v1/orders/01234567-89ab-8cde-8000-000000000000\",\"status\":\"PENDING\",\"type\":\"key\",\"updated\":\"1985-10-26T08:20:01\"}],\"total\":1}";

pub static PROJECTS: &str =
    "{\"project_quotas\":[{\"project_id\":\"p1\",\"project_quotas\":{\"consumers\":7,\"containers\":null,\"orders\":-1,\"secrets\":null}}],\"total\":1}";

pub static NO_PROJECTS: &str =
    "{\"next\":\"http://k/v1/project-quotas?limit=10&offset=10\",\"project_quotas\":[],\"total\":18446744073709551615}";

pub static BAD_LIMIT: &str =
    "{\"code\":400,\"description\":\"BadBody: limit\",\"title\":\"Bad Request\"}";
