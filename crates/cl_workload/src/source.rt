/// The text of the sample token, each line ended by a line feed.
pub const TOKEN: &str = r#";; token.clar
(define-constant owner tx-sender)
(define-constant err-owner (err u100))
(define-constant err-sender (err u101))
(define-fungible-token coin u1000000000000)
(define-data-var uri (optional (string-utf8 256)) none)
(define-read-only (get-name) (ok "Coin"))
(define-read-only (get-symbol) (ok "CN"))
(define-read-only (get-decimals) (ok u6))
(define-read-only (get-balance (who principal)) (ok (ft-get-balance coin who)))
(define-read-only (get-total-supply) (ok (ft-get-supply coin)))
(define-read-only (get-token-uri) (ok (var-get uri)))
(define-public (set-token-uri (value (string-utf8 256)))
  (begin
    (asserts! (is-eq tx-sender owner) err-owner)
    (ok (var-set uri (some value)))))
(define-public (mint (amount uint) (to principal))
  (begin
    (asserts! (is-eq tx-sender owner) err-owner)
    (ft-mint? coin amount to)))
(define-public (transfer (amount uint) (sender principal) (to principal) (memo (optional (buff 34))))
  (begin
    (asserts! (is-eq tx-sender sender) err-sender)
    (try! (ft-transfer? coin amount sender to))
    (match memo note (print note) 0x)
    (ok true)))
"#;
