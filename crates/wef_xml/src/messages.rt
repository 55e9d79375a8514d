//! The namespaces of messages. A written message declares the prefixes that are named here.

/// SOAP 1.2, with the prefix `s`.
pub const SOAP: &str = "http://www.w3.org/2003/05/soap-envelope";

/// WS-Addressing, with the prefix `a`.
pub const ADDRESSING: &str = "http://schemas.xmlsoap.org/ws/2004/08/addressing";

/// WS-Eventing, with the prefix `e`.
pub const EVENTING: &str = "http://schemas.xmlsoap.org/ws/2004/08/eventing";

/// WS-Enumeration, with the prefix `n`.
pub const ENUMERATION: &str = "http://schemas.xmlsoap.org/ws/2004/09/enumeration";

/// WS-Management, with the prefix `w`.
pub const MANAGEMENT: &str = "http://schemas.dmtf.org/wbem/wsman/1/wsman.xsd";

/// What Windows adds to WS-Management, with the prefix `p`.
pub const WINDOWS: &str = "http://schemas.microsoft.com/wbem/wsman/1/wsman.xsd";

/// Offers of subscriptions, with the prefix `m`.
pub const SUBSCRIPTION: &str = "http://schemas.microsoft.com/wbem/wsman/1/subscription";

/// Names of machines, with the prefix `i`.
pub const MACHINE: &str = "http://schemas.microsoft.com/wbem/wsman/1/machineid";

/// What this project adds, with the prefix `u`.
pub const PROFILE: &str = "urn:wef:profile";
